// What holds the counter, and whether the comparator feeds the capture.

ghost use Rattle.std.specs.Prelude.{◌≡◌};
ghost use Rattle.time.specs.Halts.{unheld, holding, sleep_from, wakened, reduce_to, hold_to, route_to};

use crate::units::Cycle;

// Asleep, and since when; power reduction; TSM; and the comparator's route to the capture.
#[repr(C)]
#[derive(Clone, Copy)]
pub struct Halts {
    pub asleep: bool,
    pub since: Cycle,
    pub reduced: bool,
    pub tsm: bool,
    pub routed: bool,
}

impl Halts {
    // Nothing holds the counter, and the comparator does not feed the capture.
    pub fn none() -> Halts
        ensures { result ≡ unheld }
    {
        Halts {
            asleep: false,
            since: Cycle(0),
            reduced: false,
            tsm: false,
            routed: false,
        }
    }

    // Does sleep, power reduction or TSM hold the counter.
    pub fn hold(self) -> bool
        ensures { result ≡ holding self }
    {
        self.asleep | self.reduced | self.tsm
    }

    // Asleep from a cycle on.
    pub fn sleep(self, cycle: Cycle) -> Halts
        ensures { result ≡ sleep_from self cycle.0 }
    {
        let mut halts = self;
        halts.asleep = true;
        halts.since = cycle;
        halts
    }

    // Awake.
    pub fn wake(self) -> Halts
        ensures { result ≡ wakened self }
    {
        let mut halts = self;
        halts.asleep = false;
        halts
    }

    // Power reduction on or off.
    pub fn reduce(self, on: bool) -> Halts
        ensures { result ≡ reduce_to self on }
    {
        let mut halts = self;
        halts.reduced = on;
        halts
    }

    // TSM set or released.
    pub fn with_tsm(self, on: bool) -> Halts
        ensures { result ≡ hold_to self on }
    {
        let mut halts = self;
        halts.tsm = on;
        halts
    }

    // The comparator's output feeds the capture, or does not.
    pub fn route(self, on: bool) -> Halts
        ensures { result ≡ route_to self on }
    {
        let mut halts = self;
        halts.routed = on;
        halts
    }
}
