// The clock that a timer keeps.

ghost use Rattle.std.specs.Prelude.{◌+◌, ◌-◌, ◌<◌, ◌≤◌, ◌^◌, ◌≡◌};
ghost use Rattle.time.specs.Clock.{synced_at, accepted_at, restarted_at, released_at, woken_at};

use crate::units::Cycle;

// The cycle up to which the state is worked, the prescaler's origin, and the latest accepted cycle.
#[repr(C)]
#[derive(Clone, Copy)]
pub struct Clock {
    pub sync: Cycle,
    pub origin: Cycle,
    pub latest: Cycle,
}

impl Clock {
    // Time has passed up to a cycle; the latest never falls.
    pub fn synced(self, cycle: Cycle) -> Clock
        ensures { result ≡ synced_at self cycle.0 }
    {
        let latest = self.latest;
        let origin = self.origin;
        Clock {
            sync: cycle,
            origin,
            latest: latest.later(cycle),
        }
    }

    // The latest accepted cycle is another.
    pub fn accepted(self, cycle: Cycle) -> Clock
        ensures { result ≡ accepted_at self cycle.0 }
    {
        let mut clock = self;
        clock.latest = cycle;
        clock
    }

    // The prescaler starts anew at a cycle.
    pub fn restarted(self, cycle: Cycle) -> Clock
        ensures { result ≡ restarted_at self cycle.0 }
    {
        let mut clock = self;
        clock.origin = cycle;
        clock
    }

    // TSM set, or released, which starts the prescaler anew.
    pub fn released(self, on: bool, cycle: Cycle) -> Clock
        ensures { result ≡ released_at self on cycle.0 }
    {
        if on { self } else { self.restarted(cycle) }
    }

    // Woken: the origin moves by the cycles that the sleep halted, and no tick is due up to the cycle.
    pub fn woken(self, since: Cycle, cycle: Cycle) -> Clock
        requires { (since.0 ≤ cycle.0) × (self.origin.0 + (cycle.0 - since.0) < 2 ^ 64) }
        ensures { result ≡ woken_at self since.0 cycle.0 }
    {
        let origin = self.origin;
        let latest = self.latest;
        Clock {
            sync: cycle,
            origin: Cycle(origin.0 + (cycle.0 - since.0)),
            latest,
        }
    }
}
