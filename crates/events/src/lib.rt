// The events of a scheduler in the order of the Rust's vector: 64 places, of which the first `count` hold one and the others
// are blank.

#![tactic(auto)]

ghost use Rattle.std.specs.Prelude.{◌<◌, ◌≤◌, ◌≡◌, [], ◌∷◌, ◌++◌, eqb, length, position, get_or, set, IfSome};
ghost use Rattle.events.specs.Events.{blank, same, earliest, swap_removed};

use std::marker::Model;

// Identifies an event: the owning peripheral index and a peripheral-defined tag.
#[repr(C)]
#[derive(Clone, Copy, PartialEq, Eq)]
pub struct EventKey {
    pub owner: u8,
    pub tag: u8,
}

#[repr(C)]
#[derive(Clone, Copy)]
pub struct Event {
    pub key: EventKey,
    pub cycle: u64,
}

// How many events are held at most.
pub const PLACES: usize = 64;

// What stands in a place that holds no event.
const BLANK: Event = Event {
    key: EventKey { owner: 0, tag: 0 },
    cycle: 0,
};

#[repr(C)]
#[derive(Clone, Copy)]
pub struct Events {
    places: [Event; PLACES],
    count: usize,
}

// Contracts see the list that the places hold.
impl Model for Events {
    ghost use Rattle.std.specs.Prelude.{List};
    ghost use Rattle.events.specs.declared.Event.{Event};

    ghost Value = { List Event };

    ghost use Rattle.std.proofs.Common.{sym};
    ghost use Rattle.events.specs.Places.{listed, list_in, Packed};

    ghost view = { list_in };

    ghost invariant = { Packed };

    ghost inverse = { listed };

    ghost inverse_ok = { λ a h. sym h.whole };
}

impl Events {
    // No event.
    pub fn new() -> Self
        ensures { result ≡ [] }
    {
        Events {
            places: [BLANK; PLACES],
            count: 0,
        }
    }

    // How many events are held.
    pub fn count(self) -> usize
        ensures { result ≡ length self }
    {
        self.count
    }

    // Each place holds an event.
    pub fn is_full(self) -> bool
        ensures full { result ≡ eqb (length self) 64 }
        ensures room { length self ≤ 64 }
    {
        self.count == PLACES
    }

    // The place of the first event with the key.
    pub fn position(self, key: EventKey) -> Option<usize>
        ensures place { result ≡ position (λ e. same e.key key) self }
        ensures within { IfSome result (λ i. i < length self) }
    {
        self.places[..self.count]
            .iter()
            .position(|event| event.key == key)
    }

    // The place of the first event at the cycle.
    pub fn first_at(self, cycle: u64) -> Option<usize>
        ensures place { result ≡ position (λ e. eqb e.cycle cycle) self }
        ensures within { IfSome result (λ i. i < length self) }
    {
        self.places[..self.count]
            .iter()
            .position(|event| event.cycle == cycle)
    }

    // The event at a place.
    pub fn get(self, i: usize) -> Event
        requires { i < length self }
        ensures { result ≡ get_or self i blank }
    {
        self.places[i]
    }

    // Another event at a place.
    pub fn set(mut self, i: usize, event: Event) -> Self
        requires { i < length self }
        ensures { result ≡ set self i event }
    {
        self.places[i] = event;
        self
    }

    // One event more, at the end.
    pub fn push(mut self, event: Event) -> Self
        requires { length self < 64 }
        ensures { result ≡ self ++ event ∷ [] }
    {
        self.places[self.count] = event;
        self.count += 1;
        self
    }

    // One event less: the last one takes its place.
    pub fn swap_remove(mut self, i: usize) -> Self
        requires { i < length self }
        ensures { result ≡ swap_removed i self }
    {
        let last = self.count - 1;
        self.places[i] = self.places[last];
        self.places[last] = BLANK;
        self.count = last;
        self
    }

    // The least cycle, 2^64 - 1 when there is no event.
    pub fn earliest(self) -> u64
        ensures { result ≡ earliest self }
    {
        self.places[..self.count]
            .iter()
            .map(|event| event.cycle)
            .min()
            .unwrap_or(u64::MAX)
    }
}
