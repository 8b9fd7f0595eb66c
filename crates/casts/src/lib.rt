// One timer of the board under what reaches all three.

#![tactic(auto)]

ghost use Rattle.std.specs.Prelude.{◌≡◌};
ghost use Rattle.passage.specs.Passage.{ticks};
ghost use Rattle.counter.specs.Valid.{Valid as Running};
ghost use Rattle.answers.specs.Answers.{number_of, Tells};
ghost use Rattle.timer.specs.Calls.{answered};
ghost use Rattle.timer.specs.declared.calls.Call.{Call};
ghost use Rattle.casts.specs.Casts.{prescaled, reached, lowest};

use aims::Cast;
use answers::{Answer, Outcome, refused};
use counter::state::Timer;
use halting::{prescale, reduce, sleep, tsm, wake};
use time::units::Cycle;

// Yields an answer's refusal, 0 for none.
pub fn number(answer: Answer) -> u8
    ensures { result ≡ number_of answer }
{
    match answer {
        Answer::Refused(n) => n,
        Answer::Done => 0,
        Answer::Value(v) => 0,
        Answer::Next(n) => 0,
        Answer::Reached(f) => 0,
        Answer::Paused(c, f) => 0,
    }
}

// Yields the lower of two refusals, where 0 is none.
pub fn lowest(a: u8, b: u8) -> u8
    ensures { result ≡ lowest a b }
{
    if a == 0 {
        return b;
    }
    if b == 0 {
        return a;
    }
    if a <= b { a } else { b }
}

// TSM takes a level, and then prescalers are reset; the timer is as it was where either is refused.
fn synchronise(t: Timer, level: u8, mask: u8, cycle: Cycle, area: &mut [u8]) -> Outcome
    requires { Running t }
    ensures { Tells (prescaled ticks t mask cycle.0 area.old (answered ticks t (Call.Tsm level) cycle.0 area.old)) result area.new }
{
    let x = tsm(t, level, cycle, area);
    let answer = x.answer;
    if number(answer) != 0 {
        return x;
    }
    let u = x.timer;
    let y = prescale(u, mask, cycle, area);
    let answer = y.answer;
    let n = number(answer);
    if n != 0 {
        return refused(t, n);
    }
    y
}

// Yields what one timer answers.
pub fn reach(t: Timer, cast: Cast, cycle: Cycle, area: &mut [u8]) -> Outcome
    requires { Running t }
    ensures { Tells (reached ticks t cast cycle.0 area.old) result area.new }
{
    match cast {
        Cast::Sleep(mode) => sleep(t, mode, cycle, area),
        Cast::Wake => wake(t, cycle, area),
        Cast::Reduce(value) => reduce(t, value as u16, cycle, area),
        Cast::Prescale(mask) => prescale(t, mask, cycle, area),
        Cast::Synchronise(level, mask) => synchronise(t, level, mask, cycle, area),
    }
}
