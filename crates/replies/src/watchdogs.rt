// A watchdog's answers in numbers.

ghost use Rattle.std.specs.Prelude.{◌≡◌, ℕ, List};
ghost use Rattle.watchdog.specs.declared.calls.Call.{Call};
ghost use Rattle.oscillator.specs.State.{Valid, accepted_at};
ghost use Rattle.watchdog.specs.Outcome.{refused, values_of, heard};
ghost use Rattle.replies.specs.Watchdogs.{report_of, watched_of, Reported};

use oscillator::state::Watchdog;
use time::units::Cycle;
use watchdog::calls;
use watchdog::outcome::{Answer, Outcome, Refusal};

// number is the refusal's, 0 for none. what is 0 for no value, 1 for WDTCSR, 2 for the next event's cycle, 3 for none to
// come, 4 for the sync cycle of an advance that stopped; value has it. written counts the area's bytes. C reads it: so numbers,
// and no `Result`.
#[repr(C)]
#[derive(Clone, Copy)]
pub struct Report {
    pub number: u8,
    pub what: u8,
    pub value: u64,
    pub written: u64,
}

// The watchdog after a call, and its report.
#[repr(C)]
#[derive(Clone, Copy)]
pub struct Watched {
    pub watchdog: Watchdog,
    pub report: Report,
}

impl Report {
    // Yields an accepted call's answer in numbers.
    fn of(outcome: Outcome) -> Report
        ensures { result ≡ report_of 0 (values_of outcome.answer) outcome.written }
    {
        let (what, value) = match outcome.answer {
            Answer::Done => (0, 0),
            Answer::Value(value) => (1, u64::from(value)),
            Answer::Next(Some(cycle)) => (2, cycle.0),
            Answer::Next(None) => (3, 0),
            Answer::Paused(cycle) => (4, cycle.0),
        };
        Report {
            number: 0,
            what,
            value,
            written: outcome.written as u64,
        }
    }

    // Yields a refusal's number as a report, which has no value, and how many bytes were written.
    fn refused(number: u8, written: usize) -> Report
        ensures { result ≡ report_of number refused written }
    {
        Report {
            number,
            what: 0,
            value: 0,
            written: written as u64,
        }
    }
}

// Yields a watchdog, and beside it a refusal by its number, whatever that is, and how many bytes were written.
pub fn refused_having_written(w: Watchdog, number: u8, written: usize) -> Watched
    ensures { result ≡ record { watchdog = w; report = report_of number refused written } }
{
    Watched {
        watchdog: w,
        report: Report::refused(number, written),
    }
}

// Yields the watchdog as it was, and a refusal by its number, whatever that is.
pub fn refused(w: Watchdog, number: u8) -> Watched
    ensures { result ≡ record { watchdog = w; report = report_of number refused 0 } }
{
    refused_having_written(w, number, 0)
}

// Yields a refusal by its number, whatever that is, whose cycle counts all the same as the latest accepted.
pub fn refused_at(w: Watchdog, cycle: Cycle, number: u8) -> Watched
    ensures { result ≡ record { watchdog = accepted_at w cycle.0; report = report_of number refused 0 } }
{
    refused(w.accepted(cycle), number)
}

// Yields the watchdog after a call, which a refusal leaves as it was, and the call's answer in numbers.
pub fn reported(w: Watchdog, answered: Result<Outcome, Refusal>) -> Watched
    ensures { (area : List ℕ) → result ≡ watched_of (heard w answered area) }
{
    match answered {
        Ok(outcome) => Watched {
            watchdog: outcome.watchdog,
            report: Report::of(outcome),
        },
        Err(why) => refused(w, why.number()),
    }
}

// WDTCSR is written.
#[tactic(auto, using(crate::proofs::Reported::reports))]
pub fn written(w: Watchdog, value: u8, cycle: u64) -> Watched
    requires { Valid w }
    ensures { Reported w (Call.Write value) cycle result }
{
    reported(w, calls::write(w, value, Cycle(cycle)))
}
