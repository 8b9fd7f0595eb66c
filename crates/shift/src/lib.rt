// How far a late edge moves the capture: ticks from one edge's cycle to another's, with a sign.

#![tactic(auto)]

ghost use Rattle.std.specs.Prelude.{◌≤◌, ◌≡◌, cond, pos, neg_ℤ};
ghost use Rattle.counter.specs.Valid.{Valid};
ghost use Rattle.shift.specs.Shift.{apart, between, far_of, foremost, refusal_of, Answers};

use answers::refusals::late;
use counter::state::Timer;
use time::units::{Cycle, Ticks};

// A refusal's number, or the tick number of the second edge less that of the first.
#[derive(Clone, Copy)]
pub enum Moved {
    Refused(u8),
    By(i32),
}

// How far two numbers lie apart.
fn apart(a: u64, b: u64) -> u64
    ensures { result ≡ apart a b }
{
    if a <= b { b - a } else { a - b }
}

// A size with a sign.
fn signed(size: u64, back: bool) -> i32
    requires { size ≤ 32767 }
    ensures { result ≡ cond back (neg_ℤ (pos size)) (pos size) }
{
    let n = size as i32;
    if back { -n } else { n }
}

// From one tick to another, with a sign.
fn between(from: Ticks, to: Ticks) -> i32
    requires { apart from.0 to.0 ≤ 32767 }
    ensures { result ≡ between from.0 to.0 }
{
    signed(apart(from.0, to.0), to.0 < from.0)
}

// 18 where the counter runs and the cycles lie too far apart, else 0.
fn far(t: Timer, first: Cycle, second: Cycle) -> u8
    ensures { result ≡ far_of t first.0 second.0 }
{
    let p = t.prescaler();
    let most = 32767 * (p.divisor as u64);
    if t.running() & (most <= apart(first.0, second.0)) {
        18
    } else {
        0
    }
}

// The first of three numbers that is not 0, else 0.
fn foremost(a: u8, b: u8, c: u8) -> u8
    ensures { result ≡ foremost a b c }
{
    if a != 0 {
        a
    } else if b != 0 {
        b
    } else {
        c
    }
}

// The first edge's 2 or 3, then the second's, then 18; 0 for none.
fn refusal(t: Timer, first: Cycle, second: Cycle) -> u8
    ensures { result ≡ refusal_of t first.0 second.0 }
{
    foremost(late(t, first), late(t, second), far(t, first, second))
}

// Yields how many ticks later the second edge is captured than the first; 0 where the counter does not run.
pub fn shift(t: Timer, first: Cycle, second: Cycle) -> Moved
    requires { Valid t }
    ensures { Answers t first.0 second.0 result }
{
    let n = refusal(t, first, second);
    if n != 0 {
        return Moved::Refused(n);
    }
    if t.running() {
        let p = t.prescaler();
        Moved::By(between(p.ticks(first), p.ticks(second)))
    } else {
        Moved::By(0)
    }
}
