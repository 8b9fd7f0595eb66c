// The calls, each by value with its cycle; the advance with its area. A call that is turned away leaves the caller's watchdog
// and area as they were.

ghost use Rattle.std.specs.Prelude.{◌≡◌, IfOk};
ghost use Rattle.oscillator.specs.State.{Valid};
ghost use Rattle.oscillator.specs.Oscillator.{ticks, synced};
ghost use Rattle.watchdog.specs.Outcome.{number_in, Tells};
ghost use Rattle.watchdog.specs.Calls.{late, early, answered, Answers};

use crate::outcome::{Answer, Outcome, Refusal, done};
use oscillator::state::Watchdog;
use time::units::Cycle;

// A call with its arguments.
#[derive(Clone, Copy)]
pub enum Call {
    Advance,
    Next,
    Wdr,
    Serve,
    Read,
    Write(u8),
}

// Is the cycle one that a call may have, and not before the latest.
fn in_order(w: Watchdog, cycle: Cycle) -> Result<(), Refusal>
    ensures { number_in result ≡ late w cycle.0 }
{
    match cycle.refusal(w.latest) {
        0 => Ok(()),
        2 => Err(Refusal::TooLarge),
        _ => Err(Refusal::TooEarly),
    }
}

// Does the next event, too, lie after the cycle.
#[tactic(auto, unfolding(crate::specs::Calls::early))]
fn in_time(w: Watchdog, cycle: Cycle) -> Result<(), Refusal>
    requires { Valid w }
    ensures { number_in result ≡ early w cycle.0 }
{
    in_order(w, cycle)?;
    if w.is_due(cycle) {
        return Err(Refusal::Due);
    }
    Ok(())
}

// The watchdog whose time has passed up to a call's cycle.
fn synced(w: Watchdog, cycle: Cycle) -> Result<Watchdog, Refusal>
    requires { Valid w }
    ensures number { number_in result ≡ early w cycle.0 }
    ensures ok { IfOk result (λ s. s ≡ synced ticks w cycle.0) }
{
    in_time(w, cycle)?;
    Ok(w.sync(cycle))
}

// Time passes up to a cycle, or to the first time-out whose record does not fit; yields the sync cycle where it stops.
#[tactic(auto, using(crate::proofs::Outcomes::turned_away), unfolding(crate::specs::Calls::refusal_of))]
pub fn advance(w: Watchdog, cycle: Cycle, area: &mut [u8]) -> Result<Outcome, Refusal>
    requires { Valid w }
    ensures { Tells (answered ticks w Call.Advance cycle.0 area.old) w result area.new }
{
    in_order(w, cycle)?;
    let advanced = w.advance(cycle, area);
    Ok(Outcome {
        answer: advanced.paused.map_or(Answer::Done, Answer::Paused),
        watchdog: advanced.watchdog,
        written: advanced.written,
    })
}

// Yields the next event.
#[tactic(auto, using(crate::proofs::Outcomes::turned_away), unfolding(crate::specs::Calls::refusal_of))]
pub fn next(w: Watchdog, cycle: Cycle) -> Result<Outcome, Refusal>
    requires { Valid w }
    ensures { Answers w Call.Next cycle.0 result }
{
    in_time(w, cycle)?;
    Ok(done(w, cycle, Answer::Next(w.next())))
}

// WDR: the count starts anew.
#[tactic(auto, using(crate::proofs::Outcomes::turned_away), unfolding(crate::specs::Calls::refusal_of))]
pub fn wdr(w: Watchdog, cycle: Cycle) -> Result<Outcome, Refusal>
    requires { Valid w }
    ensures { Answers w Call.Wdr cycle.0 result }
{
    let s = synced(w, cycle)?;
    Ok(done(s.with(s.moving.rewound()), cycle, Answer::Done))
}

// The interrupt is served.
#[tactic(auto, using(crate::proofs::Outcomes::turned_away), unfolding(crate::specs::Calls::refusal_of))]
pub fn serve(w: Watchdog, cycle: Cycle) -> Result<Outcome, Refusal>
    requires { Valid w }
    ensures { Answers w Call.Serve cycle.0 result }
{
    let s = synced(w, cycle)?;
    Ok(done(s.with(s.moving.served()), cycle, Answer::Done))
}

// Yields WDTCSR.
#[tactic(auto, using(crate::proofs::Outcomes::turned_away), unfolding(crate::specs::Calls::refusal_of))]
pub fn read(w: Watchdog, cycle: Cycle) -> Result<Outcome, Refusal>
    requires { Valid w }
    ensures { Answers w Call.Read cycle.0 result }
{
    let s = synced(w, cycle)?;
    Ok(done(s, cycle, Answer::Value(s.moving.wdtcsr(cycle))))
}

// WDTCSR is written.
#[tactic(auto, using(crate::proofs::Outcomes::turned_away), unfolding(crate::specs::Calls::refusal_of))]
pub fn write(w: Watchdog, value: u8, cycle: Cycle) -> Result<Outcome, Refusal>
    requires { Valid w }
    ensures { Answers w (Call.Write value) cycle.0 result }
{
    let window = w.moving.window;
    let s = synced(w, cycle)?;
    if window.too_long(value, cycle) {
        return Err(Refusal::TooLong);
    }
    Ok(done(s.with(s.moving.write(value, cycle)), cycle, Answer::Done))
}
