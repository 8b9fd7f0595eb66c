// Runs the dump of `vcd` on files that are refused, and on an empty one. A file stands for standard error, so that each output is seen on its own:
// a path, what standard output gets, a line `-- standard error`, and what that file then holds.

#![tactic(auto)]

use std::fs::File;
use std::rt::Files;
use std::{fs, io};

// One record longer than the longest log: 2^30 is no multiple of ten.
const TOO_LONG: u64 = 1073741830;

const PATHS: [&str; 15] = [
    "missing.log",
    ".",
    "odd.log",
    "late_then_odd.log",
    "too_long.log",
    "kind_3.log",
    "filler_of_a_pin.log",
    "filler_of_a_flag.log",
    "filler_of_a_trigger.log",
    "filler_and_late.log",
    "late.log",
    "late_in_the_second_piece.log",
    "far.log",
    "far_then_late.log",
    "empty.log",
];

fn line(rt: &HostRuntime, text: &[u8]) -> io::Result<()> {
    rt.write_all(text)?;
    rt.write_all(b"\n")
}

// Writes what the file for standard error got to standard output.
fn show(rt: &HostRuntime) -> io::Result<()> {
    let text = fs::read(rt, "stderr")?;
    rt.write_all(&text)
}

// A new file stands for standard error.
fn run(rt: &HostRuntime, path: &[u8]) -> io::Result<()> {
    line(rt, path)?;
    let mut output = rt.stdout();
    let mut error = File::create(rt, "stderr")?;
    soak::dump_file(rt, path, &mut output, &mut error);
    line(rt, b"-- standard error")?;
    show(rt)
}

// Makes a file of zeros.
fn zeros(rt: &HostRuntime, path: &str, bytes: u64) -> io::Result<()> {
    File::create(rt, path)?.set_len(bytes)
}

fn main(rt: HostRuntime) -> io::Result<()> {
    zeros(&rt, "too_long.log", TOO_LONG)?;
    for path in PATHS {
        run(&rt, path.as_bytes())?;
    }
    Ok(())
}
