// Whole records, judged one after the other.

ghost use Rattle.std.specs.Prelude.{◌≡◌};
ghost use Rattle.pieces.specs.Pieces.{number_of_kind};
ghost use Rattle.verdict.specs.Fault.{number_of};
ghost use Rattle.verdict.specs.Refusal.{formed};
ghost use Rattle.verdict.specs.Check.{unjudged, refused_after, judged};

use pieces::{Kind, Whole};

// Why a log is refused, by number.
#[derive(Clone, Copy, PartialEq, Eq)]
pub enum Fault {
    // Its length is no multiple of ten or over 2^30, or a record's form is wrong.
    Malformed = 13,
    // A record's cycle is below the one before it.
    OutOfOrder = 14,
    // A record's cycle is over 2^48 - 1.
    TooLarge = 15,
}

impl Fault {
    // The refusal's number.
    pub fn number(self) -> u8
        ensures { result ≡ number_of self }
    {
        self as u8
    }
}

// The cycle of the last record, and the first fault of those so far.
#[derive(Clone, Copy)]
pub struct Judge {
    last: u64,
    found: Option<Fault>,
}

// Is the filler zero, and is a record of the watchdog one of its two?
#[tactic(auto, unfolding(crate::specs::Refusal::formed))]
fn formed(kind: Kind, body: u16) -> bool
    ensures { result ≡ formed (number_of_kind kind) body }
{
    match kind {
        Kind::Pin => body % 64 == 0,
        Kind::Flag => body % 8 == 0,
        Kind::Trigger => body % 16 == 0,
        Kind::Watchdog => body == 1 || body == 2,
    }
}

// Why a record is refused by itself after a cycle.
#[tactic(auto, unfolding(crate::specs::Refusal::first_fault))]
fn refused_after(last: u64, whole: Whole) -> Option<Fault>
    ensures { result ≡ refused_after last whole }
{
    let cycle = whole.cycle();
    if !formed(whole.kind(), whole.body) {
        return Some(Fault::Malformed);
    }
    if cycle < last {
        return Some(Fault::OutOfOrder);
    }
    if 0x1_0000_0000_0000 <= cycle {
        return Some(Fault::TooLarge);
    }
    None
}

impl Judge {
    // Before a log's first record.
    pub fn new() -> Judge
        ensures { result ≡ unjudged }
    {
        Judge {
            last: 0,
            found: None,
        }
    }

    // The first fault so far.
    pub fn found(self) -> Option<Fault>
        ensures { result ≡ self.found }
    {
        self.found
    }

    // Judges the next record.
    #[tactic(auto, unfolding(crate::specs::Check::judged))]
    pub fn judge(&mut self, whole: Whole)
        ensures { self.new ≡ judged self.old whole }
    {
        if self.found.is_none() {
            self.found = refused_after(self.last, whole);
        }
        self.last = whole.cycle();
    }
}
