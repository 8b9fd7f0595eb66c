// What a call answers, or why it is turned away.

ghost use Rattle.std.specs.Prelude.{◌≡◌};
ghost use Rattle.oscillator.specs.State.{accepted_at};
ghost use Rattle.watchdog.specs.Outcome.{number_of};

use oscillator::state::Watchdog;
use time::units::Cycle;

// Why a call is turned away.
#[derive(Clone, Copy, PartialEq, Eq)]
pub enum Refusal {
    // The cycle is over 2^62 - 1.
    TooLarge,
    // The cycle is below the latest accepted.
    TooEarly,
    // The next event lies at or before the cycle.
    Due,
    // A write would take a prescaler from 10 to 15.
    TooLong,
}

impl Refusal {
    // The refusal's number.
    pub fn number(self) -> u8
        ensures { result ≡ number_of self }
    {
        match self {
            Refusal::TooLarge => 2,
            Refusal::TooEarly => 3,
            Refusal::Due => 6,
            Refusal::TooLong => 17,
        }
    }
}

// Done, WDTCSR as read, the next event, or the sync cycle of an advance that stopped.
#[derive(Clone, Copy)]
pub enum Answer {
    Done,
    Value(u8),
    Next(Option<Cycle>),
    Paused(Cycle),
}

// The answer of an accepted call, the watchdog after it, and the bytes written from the area's start.
#[derive(Clone, Copy)]
pub struct Outcome {
    pub answer: Answer,
    pub watchdog: Watchdog,
    pub written: usize,
}

// A call accepted at a cycle that writes no record.
pub fn done(w: Watchdog, cycle: Cycle, answer: Answer) -> Outcome
    ensures { result ≡ record { answer = answer; watchdog = accepted_at w cycle.0; written = 0 } }
{
    Outcome {
        answer,
        watchdog: w.accepted(cycle),
        written: 0,
    }
}
