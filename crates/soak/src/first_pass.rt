// The first pass: the log's check.

ghost use Rattle.std.specs.Prelude.{◌≡◌};
ghost use Rattle.soak.specs.Input.{opened};
ghost use Rattle.soak.specs.Passes.{first_refusal, Checks};

use crate::input::{Input, Reader};
use crate::refusal::Refusal;
use std::fs::File;
use std::rt::Files;
use verdict::Check;

// The file after the pass, and the check of what was read.
#[derive(Clone, Copy)]
pub struct Checked {
    pub input: Input,
    pub check: Check,
}

// Checks an open file chunk by chunk.
fn check_chunks(file: &mut Reader) -> Check
    requires { file.old.input ≡ opened }
    ensures { Checks file.new.input result }
{
    let mut area = [0u8; 640];
    let mut check = Check::new();
    while let Some(n) = file.read(&mut area) {
        check.piece(&area[..n]);
    }
    check
}

// Opens a file and checks it.
pub fn check_file<R: Files<File = File>>(rt: &R, path: &[u8]) -> Checked
    ensures { Checks result.input result.check }
{
    let Some(mut file) = Reader::open(rt, path) else {
        return Checked {
            input: Input::missing(),
            check: Check::new(),
        };
    };
    let check = check_chunks(&mut file);
    Checked {
        input: file.close(),
        check,
    }
}

impl Checked {
    // Why the file is refused; that it cannot be read comes before all else.
    pub fn refusal(&self) -> Option<Refusal>
        ensures { result ≡ first_refusal self.now.input self.now.check }
    {
        if self.input.failed() {
            return Some(Refusal::Unreadable);
        }
        self.check.refusal().map(Refusal::Log)
    }
}
