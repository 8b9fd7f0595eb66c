// Cycle-stamped event scheduler: events at the exact CPU cycle where something observable happens, and the earliest of
// their cycles. A scheduler goes in by value and comes back.

#![tactic(auto)]

ghost use Rattle.std.specs.Prelude.{◌≡◌, []};
ghost use Rattle.events.specs.Events.{earliest};
ghost use Rattle.scheduler.specs.Scheduler.{scheduled, removed, cycle_of, popped};

use events::Events;
pub use events::{Event, EventKey};
use std::marker::Model;

#[repr(C)]
#[derive(Clone, Copy)]
pub struct Scheduler {
    events: Events,
    // Cycle of the earliest event (2^64 - 1 when none).
    next: u64,
}

// Contracts see the list of events held, from which the cycle kept beside it follows.
impl Model for Scheduler {
    ghost use Rattle.std.specs.Prelude.{List, ◌≡◌};
    ghost use Rattle.events.specs.declared.Event.{Event};
    ghost use Rattle.events.specs.Events.{earliest};

    ghost Value = { List Event };

    ghost view = { λ s. s.events };

    ghost invariant = { λ s. s.next ≡ earliest s.events };

    ghost inverse = { λ l. record { events = l; next = earliest l } };
}

// Why a new key is refused: 64 events are held.
#[derive(Clone, Copy, PartialEq, Eq)]
pub struct Full;

impl Full {
    // The number of this refusal.
    pub fn number(self) -> u8
        ensures { result ≡ 11 }
    {
        11
    }
}

// What `pop_due` takes out, and what it leaves.
#[derive(Clone, Copy)]
pub struct Popping {
    pub due: Option<Event>,
    pub scheduler: Scheduler,
}

impl Scheduler {
    // A scheduler that holds no event.
    pub fn new() -> Self
        ensures { result ≡ [] }
    {
        Scheduler::of(Events::new())
    }

    // Schedules (or re-schedules) `key` at `cycle`. Where it is refused, the scheduler that was passed stays the one.
    #[tactic(auto, unfolding(crate::specs::Scheduler::scheduled, crate::specs::Scheduler::put))]
    pub fn at(self, key: EventKey, cycle: u64) -> Result<Scheduler, Full>
        ensures { result ≡ scheduled key cycle self }
    {
        let events = self.events;
        let event = Event { key, cycle };
        if let Some(place) = events.position(key) {
            return Ok(Scheduler::of(events.set(place, event)));
        }
        if events.is_full() {
            return Err(Full);
        }
        Ok(Scheduler {
            events: events.push(event),
            next: self.next.min(cycle),
        })
    }

    // Removes the event of `key`, if there is one.
    #[tactic(auto, unfolding(crate::specs::Scheduler::removed))]
    pub fn cancel(self, key: EventKey) -> Self
        ensures { result ≡ removed key self }
    {
        let events = self.events;
        let Some(place) = events.position(key) else {
            return self;
        };
        let rest = events.swap_remove(place);
        if events.get(place).cycle <= self.next {
            return Scheduler::of(rest);
        }
        Scheduler {
            events: rest,
            next: self.next,
        }
    }

    // The cycle at which `key` is scheduled.
    #[tactic(auto, unfolding(crate::specs::Scheduler::cycle_of))]
    pub fn is_scheduled(self, key: EventKey) -> Option<u64>
        ensures { result ≡ cycle_of key self }
    {
        let place = self.events.position(key)?;
        Some(self.events.get(place).cycle)
    }

    // Removes and answers the earliest event due at or before `now`; of equal cycles the first in the vector's order.
    #[tactic(auto, unfolding(crate::specs::Scheduler::popped))]
    pub fn pop_due(self, now: u64) -> Popping
        ensures { result ≡ popped «now» self }
    {
        let due = if self.next > now {
            None
        } else {
            self.events.first_at(self.next)
        };
        match due {
            Some(place) => Popping {
                due: Some(self.events.get(place)),
                scheduler: Scheduler::of(self.events.swap_remove(place)),
            },
            None => Popping {
                due: None,
                scheduler: self,
            },
        }
    }

    // Removes every event.
    pub fn clear(self) -> Self
        ensures { result ≡ [] }
    {
        Scheduler::new()
    }

    // The cycle of the earliest event, 2^64 - 1 when there is none.
    pub fn next(self) -> u64
        ensures { result ≡ earliest self }
    {
        self.next
    }

    // The scheduler of these events.
    fn of(events: Events) -> Self
        ensures { result ≡ events }
    {
        Scheduler {
            events,
            next: events.earliest(),
        }
    }
}
