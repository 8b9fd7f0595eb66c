// Time that elapses: the advance, the next event, and the reset.

#![tactic(auto)]

ghost use Rattle.passage.specs.Passage.{ticks};
ghost use Rattle.counter.specs.Valid.{Valid};
ghost use Rattle.answers.specs.Answers.{Tells};
ghost use Rattle.timer.specs.Calls.{answered};
ghost use Rattle.timer.specs.declared.calls.Call.{Call};

use answers::refusals::{late, refusal};
use answers::{Answer, Outcome, done, logged, refused};
use counter::state::Timer;
use time::units::Cycle;

// Time passes up to a cycle, or to the first tick whose records do not fit; yields the flags of the then next event, and the
// sync cycle where it stops.
pub fn advance(t: Timer, cycle: Cycle, area: &mut [u8]) -> Outcome
    requires { Valid t }
    ensures { Tells (answered ticks t Call.Advance cycle.0 area.old) result area.new }
{
    let n = late(t, cycle);
    if n != 0 {
        return refused(t, n);
    }
    let a = t.advance(cycle, area);
    let u = a.timer;
    let flags = u.next_flags();
    if a.paused {
        let clock = u.clock;
        let sync = clock.sync;
        Outcome {
            answer: Answer::Paused(sync, flags),
            timer: u,
            written: a.written,
        }
    } else {
        Outcome {
            answer: Answer::Reached(flags),
            timer: u,
            written: a.written,
        }
    }
}

// Yields the next event with its flags.
pub fn next(t: Timer, cycle: Cycle, area: &mut [u8]) -> Outcome
    requires { Valid t }
    ensures { Tells (answered ticks t Call.Next cycle.0 area.old) result area.new }
{
    let n = refusal(t, cycle, false, false, true, false);
    if n != 0 {
        return refused(t, n);
    }
    done(t, cycle, Answer::Next(t.next()))
}

// The timer is reset.
pub fn reset(t: Timer, cycle: Cycle, area: &mut [u8]) -> Outcome
    requires { Valid t }
    ensures { Tells (answered ticks t Call.Reset cycle.0 area.old) result area.new }
{
    let n = late(t, cycle);
    if n != 0 {
        return refused(t, n);
    }
    logged(t, t.reset(cycle), cycle, area)
}
