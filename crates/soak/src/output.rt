// An output that is written to.

ghost use Rattle.std.specs.Prelude.{◌+◌, ◌<◌, ◌^◌, ◌≡◌, length};
ghost use Rattle.soak.specs.Output.{output_of, wrote};

use std::io::Write;

// The descriptors of standard output and standard error.
pub const STDOUT_FILENO: i32 = 1;

pub const STDERR_FILENO: i32 = 2;

// A file descriptor, and how many bytes were handed to it.
#[derive(Clone, Copy)]
pub struct Output {
    fd: i32,
    bytes: u64,
}

// What is written to, and what it got.
#[derive(Drop)]
pub struct Sink<W> {
    to: W,
    output: Output,
}

impl<W: Write> Sink<W> {
    // A descriptor to which nothing was written.
    pub fn new(fd: i32, to: W) -> Sink<W>
        ensures { result.output ≡ output_of fd }
    {
        Sink {
            to,
            output: Output { fd, bytes: 0 },
        }
    }

    // Writes bytes; a write that fails is passed over.
    pub fn write(&mut self, bytes: &[u8])
        requires { self.old.output.bytes + length bytes.now < 2 ^ 64 }
        ensures { self.new.output ≡ wrote self.old.output bytes.now }
    {
        let _ = self.to.write_all(bytes);
        self.output.bytes += bytes.len() as u64;
    }

    // What was written.
    pub fn output(&self) -> Output
        ensures { result ≡ self.now.output }
    {
        self.output
    }
}
