// Advance and reset of a timer by value, which is lent from a local.

ghost use Rattle.answers.specs.Answers.{Tells};
ghost use Rattle.counter.specs.Valid.{Valid};
ghost use Rattle.passage.specs.Passage.{ticks};
ghost use Rattle.timer.specs.Calls.{answered};
ghost use Rattle.timer.specs.declared.calls.Call.{Call};

use answers::Outcome;
use counter::state::Timer;
use time::units::Cycle;

// Time passes, as `elapse::advance` has it.
pub fn advance(t: Timer, cycle: Cycle, area: &mut [u8]) -> Outcome
    requires { Valid t }
    ensures { Tells (answered ticks t Call.Advance cycle.0 area.old) result area.new }
{
    let mut u = t;
    let told = crate::advance(&mut u, cycle, area);
    Outcome {
        answer: told.answer,
        timer: u,
        written: told.written,
    }
}

// The timer is reset, as `elapse::reset` has it.
pub fn reset(t: Timer, cycle: Cycle, area: &mut [u8]) -> Outcome
    requires { Valid t }
    ensures { Tells (answered ticks t Call.Reset cycle.0 area.old) result area.new }
{
    let mut u = t;
    let told = crate::reset(&mut u, cycle, area);
    Outcome {
        answer: told.answer,
        timer: u,
        written: told.written,
    }
}
