// Bytes of the dump at a place of the area: texts, decimal numbers, and the lines that they make.

ghost use Rattle.std.specs.Prelude.{◌≡◌, cond, ◌∷◌, [], ◌++◌, ◌+◌, ◌*◌, ◌/◌, ◌≤◌, ◌<◌, ◌^◌, length};
ghost use Rattle.verdict.specs.Changes.{state_of};
ghost use Rattle.figures.specs.Figures.{text, decimal, Wrote};
ghost use Rattle.dump.specs.Dump.{var_line, time_line, five};

use figures::{number, put};

// Puts the last five digits of a number, zeros too.
fn five(out: &mut [u8], at: usize, n: u64) -> usize
    requires { at + 5 ≤ length out.old }
    ensures { Wrote out.old out.new at result (five n) }
{
    out[at] = (48 + n / 10000 % 10) as u8;
    out[at + 1] = (48 + n / 1000 % 10) as u8;
    out[at + 2] = (48 + n / 100 % 10) as u8;
    out[at + 3] = (48 + n / 10 % 10) as u8;
    out[at + 4] = (48 + n % 10) as u8;
    at + 5
}

// Puts a cycle's time: 62,500 times the cycle may have more than 64 bits, so its last five digits are put apart.
#[tactic(auto, using(crate::proofs::Writing::time_five_length))]
fn time(out: &mut [u8], at: usize, cycle: u64) -> usize
    requires { at + length (decimal (62500 * cycle)) ≤ length out.old }
    ensures { Wrote out.old out.new at result (decimal (62500 * cycle)) }
{
    if cycle < 2 {
        return number(out, at, 62500 * cycle);
    }
    let a = number(out, at, cycle / 8 * 5 + cycle % 8 * 5 / 8);
    five(out, a, cycle % 8 * 62500)
}

// Puts some bytes, a number in decimal and some more; yields the place after them.
fn around(out: &mut [u8], at: usize, left: &[u8], n: u64, right: &[u8]) -> usize
    requires { at + (length left.now + (length (decimal n) + length right.now)) ≤ length out.old }
    ensures { Wrote out.old out.new at result (left.now ++ decimal n ++ right.now) }
{
    let a = put(out, at, left);
    let b = number(out, a, n);
    put(out, b, right)
}

// Puts the line that declares a pin's wire.
#[tactic(auto, using(crate::proofs::Writing::pin_widths))]
pub fn var_line(out: &mut [u8], at: usize, pin: u64) -> usize
    requires pin { pin < 256 }
    requires room { at + 27 ≤ length out.old }
    ensures line { Wrote out.old out.new at result (var_line pin) }
    ensures room { result ≤ at + 27 }
{
    let a = around(out, at, b"$var wire 1 p", pin, b" p");
    around(out, a, b"", pin, b" $end\n")
}

// The character of a pin record's body.
#[tactic(auto, unfolding(verdict::specs::Changes::state_of))]
fn state(body: u64) -> u8
    ensures { result ≡ state_of body }
{
    if body / 128 % 2 == 1 {
        48 + (body / 64 % 2) as u8
    } else {
        b'z'
    }
}

// Puts the time of a cycle, unless it was the last.
#[tactic(auto, unfolding(crate::specs::Dump::time_line), using(crate::proofs::Writing::time_length))]
pub fn time_line(out: &mut [u8], at: usize, last: Option<u64>, cycle: u64) -> usize
    requires cycle { cycle < 2 ^ 62 }
    requires room { at + 26 ≤ length out.old }
    ensures line { Wrote out.old out.new at result (time_line last cycle) }
    ensures room { result ≤ at + 26 }
{
    if last == Some(cycle) {
        return at;
    }
    let a = put(out, at, b"#");
    let b = time(out, a, cycle);
    put(out, b, b"\n")
}

// Puts the line of a pin record's body.
#[tactic(auto, using(crate::proofs::Writing::pin_widths))]
pub fn value_line(out: &mut [u8], at: usize, body: u64) -> usize
    requires body { body < 65536 }
    requires room { at + 6 ≤ length out.old }
    ensures line { Wrote out.old out.new at result ((state_of body ∷ text "p") ++ decimal (body / 256) ++ text "\n") }
    ensures room { result ≤ at + 6 }
{
    let name = [state(body), b'p'];
    around(out, at, &name, body / 256, b"\n")
}
