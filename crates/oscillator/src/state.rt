// What a watchdog keeps.

ghost use Rattle.std.specs.Prelude.{◌≡◌};
ghost use Rattle.oscillator.specs.State.{fresh, moving_to, synced_at, accepted_at, Valid};

use time::units::Cycle;
use wdtcsr::state::{Control, Moving, Window};

// What the oscillator moves, the cycle up to which it is worked, and the latest accepted cycle.
#[repr(C)]
#[derive(Clone, Copy)]
pub struct Watchdog {
    pub moving: Moving,
    pub sync: Cycle,
    pub latest: Cycle,
}

impl Watchdog {
    // All bits clear, at cycle 0.
    pub fn new() -> Watchdog
        ensures { (result ≡ fresh) × Valid result }
    {
        let moving = Moving {
            count: 0,
            control: Control::default(),
            window: Window::shut(),
        };
        Watchdog {
            moving,
            sync: Cycle(0),
            latest: Cycle(0),
        }
    }

    // What moves is another.
    pub fn with(self, moving: Moving) -> Watchdog
        ensures { result ≡ moving_to self moving }
    {
        Watchdog { moving, ..self }
    }

    // Time has passed up to a cycle; the latest never falls.
    pub fn synced(self, cycle: Cycle) -> Watchdog
        ensures { result ≡ synced_at self cycle.0 }
    {
        Watchdog {
            sync: cycle,
            latest: self.latest.later(cycle),
            ..self
        }
    }

    // An accepted call's cycle is the latest.
    pub fn accepted(self, cycle: Cycle) -> Watchdog
        ensures { result ≡ accepted_at self cycle.0 }
    {
        Watchdog {
            latest: cycle,
            ..self
        }
    }
}
