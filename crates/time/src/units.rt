// Cycles and ticks, and the one place where one becomes the other.

ghost use Rattle.std.specs.Prelude.{◌<◌, ◌≤◌, ◌^◌, max, ◌≡◌};
ghost use Rattle.time.specs.Units.{late_at, ticks_at, cycle_at, prescaler_at};

// A CPU cycle.
#[repr(C)]
#[derive(Clone, Copy)]
pub struct Cycle(pub u64);

// The largest cycle that a call may have, 2^62 - 1.
const LAST: u64 = 0x3fff_ffff_ffff_ffff;

impl Cycle {
    // 2 or 3 where a call's cycle is too large or below the latest accepted, else 0.
    pub fn refusal(self, latest: Cycle) -> u8
        ensures { result ≡ late_at latest.0 self.0 }
    {
        if LAST < self.0 {
            2
        } else if self.0 < latest.0 {
            3
        } else {
            0
        }
    }

    // The later of two.
    pub fn later(self, cycle: Cycle) -> Cycle
        ensures { result.0 ≡ max self.0 cycle.0 }
    {
        if self.0 <= cycle.0 { cycle } else { self }
    }
}

// A prescaled tick, by its number from the prescaler's origin on.
#[derive(Clone, Copy)]
pub struct Ticks(pub u64);

// Ticks fall at origin + k × divisor.
#[derive(Clone, Copy)]
pub struct Prescaler {
    pub origin: Cycle,
    pub divisor: u32,
}

impl Prescaler {
    // The number of the last tick at or before a cycle. A known divisor makes a shift of the division.
    pub fn ticks(self, cycle: Cycle) -> Ticks
        requires { (self.origin.0 ≤ cycle.0) × (0 < self.divisor) }
        ensures { result.0 ≡ ticks_at self cycle.0 }
    {
        let origin = self.origin;
        let since = cycle.0 - origin.0;
        let divisor = self.divisor;
        match divisor {
            1 => Ticks(since),
            8 => Ticks(since / 8),
            32 => Ticks(since / 32),
            64 => Ticks(since / 64),
            128 => Ticks(since / 128),
            256 => Ticks(since / 256),
            1024 => Ticks(since / 1024),
            _ => Ticks(since / (divisor as u64)),
        }
    }

    // The cycle of a tick.
    pub fn cycle(self, tick: Ticks) -> Cycle
        requires { cycle_at self tick.0 < 2 ^ 64 }
        ensures { result.0 ≡ cycle_at self tick.0 }
    {
        let origin = self.origin;
        Cycle(origin.0 + tick.0 * (self.divisor as u64))
    }
}

// A prescaler whose divisor is 2^shift, so that no division is left; its shift is 63 where the counter does not run, so that no tick passes.
#[derive(Clone, Copy)]
pub struct FastPrescaler {
    pub origin: Cycle,
    pub shift: u64,
}

impl FastPrescaler {
    // The number of the last tick at or before a cycle.
    pub fn ticks(self, cycle: Cycle) -> Ticks
        requires { (self.origin.0 ≤ cycle.0) × (self.shift < 64) }
        ensures { result.0 ≡ ticks_at (prescaler_at self.origin.0 self.shift) cycle.0 }
    {
        let origin = self.origin;
        Ticks((cycle.0 - origin.0) >> self.shift)
    }

    // The cycle of a tick.
    pub fn cycle(self, tick: Ticks) -> Cycle
        requires { (cycle_at (prescaler_at self.origin.0 self.shift) tick.0 < 2 ^ 64) × (self.shift < 64) }
        ensures { result.0 ≡ cycle_at (prescaler_at self.origin.0 self.shift) tick.0 }
    {
        let origin = self.origin;
        Cycle(origin.0 + (tick.0 << self.shift))
    }
}
