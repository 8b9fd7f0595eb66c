// The lines before the changes.

ghost use Rattle.std.specs.Prelude.{◌+◌, ◌≤◌, length};
ghost use Rattle.figures.specs.Figures.{Wrote};
ghost use Rattle.dump.specs.Pieces.{vars_of, header_of};

use crate::text::var_line;
use figures::put;

// Puts the lines that declare the pins' wires, by rising number.
fn var_lines(pins: &[bool; 256], out: &mut [u8], from: usize) -> usize
    requires { from + 6912 ≤ length out.old }
    ensures lines { Wrote out.old out.new from result (vars_of pins.now 256) }
    ensures room { result ≤ from + 6912 }
{
    let mut at = from;
    for (pin, driven) in pins.iter().enumerate() {
        if *driven {
            at = var_line(out, at, pin as u64);
        }
    }
    at
}

// Puts the header at the area's start; yields the place after it.
pub fn put_header(pins: &[bool; 256], out: &mut [u8]) -> usize
    requires { 6954 ≤ length out.old }
    ensures lines { Wrote out.old out.new 0 result (header_of pins.now) }
    ensures room { result ≤ 6954 }
{
    let a = put(out, 0, b"$timescale 1 ps $end\n");
    let b = var_lines(pins, out, a);
    put(out, b, b"$enddefinitions $end\n")
}
