// The dump of a record log in a file, through an area of 640 bytes, in two passes: the check, then the lines.

#![tactic(auto)]

pub mod first_pass;
pub mod input;
pub mod output;
pub mod refusal;
pub mod second_pass;

ghost use Rattle.std.specs.Prelude.{◌≤◌, ◌≡◌, length};
ghost use Rattle.figures.specs.Figures.{Wrote};
ghost use Rattle.soak.specs.Output.{wrote};
ghost use Rattle.soak.specs.Refusal.{number_of};
ghost use Rattle.soak.specs.Files.{number_line, standard_error, Dumps};

use crate::first_pass::check_file;
use crate::input::Input;
use crate::output::{Output, STDERR_FILENO, STDOUT_FILENO, Sink};
use crate::refusal::Refusal;
use crate::second_pass::write_file;
use figures::put;
use std::fs::File;
use std::io::Write;
use std::rt::Files;

// Why the file is refused, how it stood after each pass, and what standard output and standard error got.
// A log that the first pass refuses has no second: it is the first again.
#[derive(Clone, Copy)]
pub struct Outcome {
    pub refusal: Option<Refusal>,
    pub first: Input,
    pub second: Input,
    pub out: Output,
    pub err: Output,
}

// Puts the number of a refusal and a line feed; yields the place after them.
fn put_number(refusal: Refusal, line: &mut [u8]) -> usize
    requires { length line.old ≡ 4 }
    ensures line { Wrote line.old line.new 0 result (number_line (number_of refusal)) }
    ensures room { result ≤ 4 }
{
    let n = figures::number(line, 0, refusal.number() as u64);
    put(line, n, b"\n")
}

// Writes the number of a refusal and a line feed, nothing where there is none.
fn write_number<W: Write>(refusal: Option<Refusal>, err: &mut Sink<W>)
    requires { err.old.output.bytes ≡ 0 }
    ensures { err.new.output ≡ wrote err.old.output (standard_error refusal) }
{
    if let Some(refusal) = refusal {
        let mut line = [0u8; 4];
        let n = put_number(refusal, &mut line);
        err.write(&line[..n]);
    }
}

// Writes the dump of a file to `output`, or the number of the refusal to `error`: standard output and standard error, or what stands for them.
pub fn dump_file<R: Files<File = File>, O: Write, E: Write>(
    rt: &R,
    path: &[u8],
    output: &mut O,
    error: &mut E,
) -> Outcome
    ensures { Dumps result }
{
    let mut out = Sink::new(STDOUT_FILENO, output);
    let mut err = Sink::new(STDERR_FILENO, error);
    let checked = check_file(rt, path);
    let first = checked.input;
    let mut second = first;
    let mut refusal = checked.refusal();
    if refusal.is_none() {
        second = write_file(rt, path, &checked.check, &mut out);
        refusal = second.cut_short();
    }
    write_number(refusal, &mut err);
    Outcome {
        refusal,
        first,
        second,
        out: out.output(),
        err: err.output(),
    }
}
