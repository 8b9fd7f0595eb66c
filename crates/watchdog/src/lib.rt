// The watchdog beside the timers: the count of its own oscillator, its time-outs, and WDTCSR.

#![tactic(auto)]

pub mod calls;
pub mod outcome;

ghost use Rattle.oscillator.specs.State.{Valid};
ghost use Rattle.oscillator.specs.Oscillator.{ticks};
ghost use Rattle.watchdog.specs.Outcome.{Tells};
ghost use Rattle.watchdog.specs.Calls.{answered};

use calls::{Call, advance, next, read, serve, wdr, write};
use oscillator::state::Watchdog;
use outcome::{Outcome, Refusal};
use time::units::Cycle;

// Any call; one that is turned away leaves the caller's watchdog and area as they were.
pub fn call(w: Watchdog, c: Call, cycle: Cycle, area: &mut [u8]) -> Result<Outcome, Refusal>
    requires { Valid w }
    ensures { Tells (answered ticks w c cycle.0 area.old) w result area.new }
{
    match c {
        Call::Advance => advance(w, cycle, area),
        Call::Next => next(w, cycle),
        Call::Wdr => wdr(w, cycle),
        Call::Serve => serve(w, cycle),
        Call::Read => read(w, cycle),
        Call::Write(value) => write(w, value, cycle),
    }
}
