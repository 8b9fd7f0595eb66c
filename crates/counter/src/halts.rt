// Sleep and wake, power reduction, TSM, prescaler reset, reset.

ghost use Rattle.std.specs.Prelude.{◌+◌, ◌-◌, ◌<◌, ◌≤◌, ◌^◌, ◌≡◌};
ghost use Rattle.counter.specs.Parts.{halts_to, clock_to};
ghost use Rattle.counter.specs.Halts.{latest_to, halting, asleep_at, awake_at, reduced_to, prescaled_at, tsm_to, routed_to, reset_at};
ghost use Rattle.counter.specs.Logs.{Logs};

use crate::advance::Logged;
use crate::state::Timer;
use time::clock::Clock;
use time::halts::Halts;
use time::units::Cycle;

impl Timer {
    const SLEEP_BITS: [u8; 8] = [1, 2, 4, 8, 16, 32, 64, 128];

    // The timer with other halts.
    pub fn with_halts(self, halts: Halts) -> Timer
        ensures { result ≡ halts_to self halts }
    {
        let mut t = self;
        t.halts = halts;
        t
    }

    // The timer with another clock.
    pub fn with_clock(self, clock: Clock) -> Timer
        ensures { result ≡ clock_to self clock }
    {
        let mut t = self;
        t.clock = clock;
        t
    }

    // The latest accepted cycle is another.
    pub fn accepted(self, cycle: Cycle) -> Timer
        ensures { result ≡ latest_to self cycle.0 }
    {
        let clock = self.clock;
        self.with_clock(clock.accepted(cycle))
    }

    // Does a sleep mode halt the counter: not idle, nor a mode that it runs in.
    pub fn halts_in(self, mode: u8) -> bool
        requires { mode < 8 }
        ensures { result ≡ halting self mode }
    {
        let config = self.config;
        let i = mode as usize;
        (mode != 0) & (config.sleeprun & Self::SLEEP_BITS[i] == 0)
    }

    // Asleep from a cycle on.
    pub fn asleep(self, cycle: Cycle) -> Timer
        ensures { result ≡ asleep_at self cycle.0 }
    {
        let halts = self.halts;
        self.with_halts(halts.sleep(cycle))
    }

    // Awake: the origin moves by the cycles that the sleep halted, and no tick is due up to the cycle.
    pub fn awake(self, cycle: Cycle) -> Timer
        requires { (self.halts.since.0 ≤ cycle.0) × (self.clock.origin.0 + (cycle.0 - self.halts.since.0) < 2 ^ 64) }
        ensures { result ≡ awake_at self cycle.0 }
    {
        let halts = self.halts;
        let since = halts.since;
        let clock = self.clock;
        self.with_halts(halts.wake())
            .with_clock(clock.woken(since, cycle))
    }

    // Power reduction on or off.
    pub fn reduced(self, on: bool) -> Timer
        ensures { result ≡ reduced_to self on }
    {
        let halts = self.halts;
        self.with_halts(halts.reduce(on))
    }

    // The prescaler starts anew at a cycle.
    pub fn prescaled(self, cycle: Cycle) -> Timer
        ensures { result ≡ prescaled_at self cycle.0 }
    {
        let clock = self.clock;
        self.with_clock(clock.restarted(cycle))
    }

    // TSM set, or released, which starts the prescaler anew.
    pub fn with_tsm(self, on: bool, cycle: Cycle) -> Timer
        ensures { result ≡ tsm_to self on cycle.0 }
    {
        let halts = self.halts;
        let clock = self.clock;
        self.with_halts(halts.with_tsm(on))
            .with_clock(clock.released(on, cycle))
    }

    // The comparator's output feeds the capture, or does not.
    pub fn routed(self, on: bool) -> Timer
        ensures { result ≡ routed_to self on }
    {
        let halts = self.halts;
        self.with_halts(halts.route(on))
    }

    // A fresh timer at a cycle, but for the flags, the drives last recorded and the latest cycle; its outputs go off.
    pub fn reset(self, cycle: Cycle) -> Logged
        ensures { Logs (reset_at self cycle.0) cycle.0 result }
    {
        let flags = self.flags;
        let drives = self.drives;
        let was = self.clock;
        let latest = was.latest;
        let config = self.config;
        let clock = Clock {
            sync: cycle,
            origin: cycle,
            latest,
        };
        let mut t = Timer::fresh(config);
        t.flags = flags;
        t.drives = drives;
        t.clock = clock;
        t.driven(true, 0, cycle)
    }
}
