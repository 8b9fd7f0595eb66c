// What a call answers, and when it is turned away.

#![tactic(auto)]

pub mod refusals;

ghost use Rattle.std.specs.Prelude.{◌≡◌, ◌≤◌};
ghost use Rattle.counter.specs.Halts.{latest_to};
ghost use Rattle.answers.specs.Answers.{Filed};

use counter::advance::Logged;
use counter::next::Next;
use counter::state::Timer;
use time::units::Cycle;

// A refusal's number; or done, a byte read, the next event; of an advance the flags of the then next event, 0 for none, and
// the sync cycle where it stopped.
#[derive(Clone, Copy)]
pub enum Answer {
    Refused(u8),
    Done,
    Value(u8),
    Next(Next),
    Reached(u8),
    Paused(Cycle, u8),
}

// The answer, the timer after the call, and the bytes written from the area's start.
#[derive(Clone, Copy)]
pub struct Outcome {
    pub answer: Answer,
    pub timer: Timer,
    pub written: usize,
}

// A call turned away: the timer is as it was.
pub fn refused(t: Timer, number: u8) -> Outcome
    ensures { result ≡ record { answer = Answer.Refused number; timer = t; written = 0 } }
{
    Outcome {
        answer: Answer::Refused(number),
        timer: t,
        written: 0,
    }
}

// A call accepted at a cycle that writes no record.
pub fn done(t: Timer, cycle: Cycle, answer: Answer) -> Outcome
    ensures { result ≡ record { answer = answer; timer = latest_to t cycle.0; written = 0 } }
{
    Outcome {
        answer,
        timer: t.accepted(cycle),
        written: 0,
    }
}

// A call accepted at a cycle if its records fit the area, else refused with 8.
pub fn logged(was: Timer, r: Logged, cycle: Cycle, area: &mut [u8]) -> Outcome
    requires { r.log.len ≤ 110 }
    ensures { Filed was r cycle.0 area.old result area.new }
{
    let t = r.timer;
    let log = r.log;
    if log.write(area, 0) {
        Outcome {
            answer: Answer::Done,
            timer: t.accepted(cycle),
            written: log.len,
        }
    } else {
        refused(was, 8)
    }
}
