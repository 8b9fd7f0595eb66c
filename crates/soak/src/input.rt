// A file that is read chunk by chunk.

ghost use Rattle.std.specs.Prelude.{◌+◌, ◌<◌, ◌^◌, ◌≡◌, length, IfSome, IfOk, IfErr, unwrap_or};
ghost use Rattle.soak.specs.Input.{missing, opened, more, failed, ended, after_read, Reads};
ghost use Rattle.soak.specs.Passes.{second_refusal};

use crate::refusal::Refusal;
use std::fs::File;
use std::io::Read;
use std::rt::Files;

// The longest log that is taken, in bytes.
const LONGEST: u64 = 0x4000_0000;

// How a file stands.
#[derive(Clone, Copy, PartialEq, Eq)]
pub enum State {
    // It could not be opened.
    Missing,
    // There may be more to read.
    Open,
    // It was read to its end.
    Ended,
    // It could not be read.
    Failed,
}

// How a file stands, and how many of its bytes were read.
#[derive(Clone, Copy)]
pub struct Input {
    state: State,
    bytes: u64,
}

// An open file, and how far it was read.
#[derive(Drop)]
pub struct Reader {
    file: File,
    input: Input,
}

impl Input {
    // A file that could not be opened.
    pub(crate) fn missing() -> Input
        ensures { result ≡ missing }
    {
        Input {
            state: State::Missing,
            bytes: 0,
        }
    }

    // Whether there may be more to read: not after a failure, at the file's end, or past the longest log.
    pub fn more(self) -> bool
        ensures { result ≡ more self }
    {
        self.state == State::Open && self.bytes <= LONGEST
    }

    // The input after a read that put so many bytes into its area, none at the file's end, or that failed.
    fn after(self, answer: Option<usize>) -> Input
        requires { self.bytes + unwrap_or answer 0 < 2 ^ 64 }
        ensures { result ≡ after_read self answer }
    {
        match answer {
            Some(0) => Input {
                state: State::Ended,
                ..self
            },
            Some(count) => Input {
                bytes: self.bytes + count as u64,
                ..self
            },
            None => Input {
                state: State::Failed,
                ..self
            },
        }
    }

    // Whether the file could not be opened or read.
    pub fn failed(self) -> bool
        ensures { result ≡ failed self }
    {
        self.state == State::Missing || self.state == State::Failed
    }

    // Whether the file was read to its end.
    pub fn ended(self) -> bool
        ensures { result ≡ ended self }
    {
        self.state == State::Ended
    }

    // Why a file is refused that has to be read to its end.
    pub fn cut_short(self) -> Option<Refusal>
        ensures { result ≡ second_refusal self }
    {
        if self.ended() {
            None
        } else {
            Some(Refusal::Unreadable)
        }
    }
}

impl Reader {
    // Opens a file; a path that is no UTF-8 is one that cannot be opened.
    pub fn open<R: Files<File = File>>(rt: &R, path: &[u8]) -> Option<Reader>
        ensures { IfSome result (λ r. r.input ≡ opened) }
    {
        let text = std::str::from_utf8(path).ok()?;
        let file = File::open(rt, text).ok()?;
        Some(Reader {
            file,
            input: Input {
                state: State::Open,
                bytes: 0,
            },
        })
    }

    // Opens a file, or yields how one stands that could not be opened.
    pub fn try_open<R: Files<File = File>>(rt: &R, path: &[u8]) -> Result<Reader, Input>
        ensures { IfOk result (λ r. r.input ≡ opened) × IfErr result (λ i. i ≡ missing) }
    {
        Reader::open(rt, path).ok_or(Input::missing())
    }

    // Reads the next chunk into an area; yields how many bytes it has, unless there is no more to read.
    pub fn read(&mut self, area: &mut [u8]) -> Option<usize>
        requires { self.old.input.bytes + length area.old < 2 ^ 64 }
        ensures { Reads self.old.input area.new result self.new.input }
    {
        if !self.input.more() {
            return None;
        }
        let answer = self.file.read(area).ok();
        self.input = self.input.after(answer);
        answer.filter(|count| *count != 0)
    }

    // Closes the file.
    pub fn close(self) -> Input
        ensures { result ≡ self.input }
    {
        let Reader { file, input } = self;
        drop(file);
        input
    }
}

#[cfg(test)]
mod tests {
    use super::*;

    #[test]
    fn tells_of_a_file_that_could_not_be_opened(rt: HostRuntime) {
        match Reader::try_open(&rt, b"no such file") {
            Ok(file) => assert!(rt; file.close().failed()),
            Err(input) => assert!(rt; input.failed() & !input.more() & !input.ended()),
        }
        match Reader::try_open(&rt, b".") {
            Ok(file) => assert!(rt; file.close().more()),
            Err(input) => assert!(rt; input.more()),
        }
    }
}
