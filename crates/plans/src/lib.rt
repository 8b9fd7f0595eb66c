// The board's scheduler: under each timer's id the next event that the timer has, and nothing else.

#![tactic(auto)]

ghost use Rattle.std.specs.Prelude.{◌≡◌};
ghost use Rattle.plans.specs.Plans.{key_of, planned_of};

use counter::next::Next;
use m328p::Id;
use scheduler::{EventKey, Scheduler};

// A timer's key: its id owns the event.
pub fn key(id: Id) -> EventKey
    ensures { result ≡ key_of id }
{
    EventKey {
        owner: id as u8,
        tag: 0,
    }
}

// Yields the scheduler with a timer's next event, or without one.
#[tactic(auto, unfolding(crate::specs::Plans::planned_of))]
pub fn planned(s: Scheduler, id: Id, next: Next) -> Scheduler
    ensures { result ≡ planned_of s id next }
{
    match next {
        Next::At(cycle, _) => s.at(key(id), cycle.0).unwrap_or(s),
        Next::Never => s.cancel(key(id)),
    }
}
