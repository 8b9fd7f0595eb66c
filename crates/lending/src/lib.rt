// Advance and reset on a lent timer: the core by value, and its timer stored.

#![tactic(auto)]

pub mod local;

ghost use Rattle.counter.specs.Valid.{Valid};
ghost use Rattle.lending.specs.Lent.{Leaves};
ghost use Rattle.passage.specs.Passage.{ticks};
ghost use Rattle.timer.specs.Calls.{answered};
ghost use Rattle.timer.specs.declared.calls.Call.{Call};

use answers::Answer;
use counter::state::Timer;
use time::units::Cycle;

// The answer, and the bytes written from the area's start.
#[derive(Clone, Copy)]
pub struct Told {
    pub answer: Answer,
    pub written: usize,
}

// Time passes up to a cycle, or to the first tick whose records do not fit.
pub fn advance(t: &mut Timer, cycle: Cycle, area: &mut [u8]) -> Told
    requires { Valid t.old }
    ensures { Leaves (answered ticks t.old Call.Advance cycle.0 area.old) t.new result area.new }
{
    let o = elapse::advance(*t, cycle, area);
    *t = o.timer;
    Told {
        answer: o.answer,
        written: o.written,
    }
}

// The timer is reset.
pub fn reset(t: &mut Timer, cycle: Cycle, area: &mut [u8]) -> Told
    requires { Valid t.old }
    ensures { Leaves (answered ticks t.old Call.Reset cycle.0 area.old) t.new result area.new }
{
    let o = elapse::reset(*t, cycle, area);
    *t = o.timer;
    Told {
        answer: o.answer,
        written: o.written,
    }
}
