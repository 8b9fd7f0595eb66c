// The check of a record log that comes in pieces: why it is refused, and the pins that it drives.

#![tactic(auto)]

pub mod judge;

ghost use Rattle.std.specs.Prelude.{◌≡◌, false, replicate};
ghost use Rattle.verdict.specs.Check.{fresh, counted, recorded, checked, refusal_in, pins_in};

use crate::judge::{Fault, Judge};
use pieces::{Kind, Part, Whole};

// The longest log that is taken, in bytes.
const LONGEST: u64 = 0x4000_0000;

// What is kept of the pieces so far: the record that is not whole, the bytes seen, the judgement of the whole records, and the pins that they drive.
#[derive(Clone, Copy)]
pub struct Check {
    part: Part,
    seen: u64,
    judge: Judge,
    pins: [bool; 256],
}

// The bytes seen with those of a piece; past the longest log they are no longer counted.
#[tactic(auto, unfolding(crate::specs::Check::counted))]
fn counted(seen: u64, n: usize) -> u64
    ensures { result ≡ counted seen n }
{
    seen.saturating_add(n as u64).min(LONGEST + 1)
}

// No pin is driven. Out of line: were the pins cleared together with the rest of a `Check`, the archive for C would ask for `memset`.
#[inline(never)]
fn none_driven() -> [bool; 256]
    ensures { result ≡ replicate 256 false }
{
    [false; 256]
}

impl Check {
    // Before a log's first piece.
    pub fn new() -> Check
        ensures { result ≡ fresh }
    {
        Check {
            part: Part::new(),
            seen: 0,
            judge: Judge::new(),
            pins: none_driven(),
        }
    }

    // Takes the next whole record.
    #[tactic(auto, unfolding(crate::specs::Check::noted))]
    fn record(&mut self, whole: Whole)
        ensures { self.new ≡ recorded self.old whole }
    {
        if whole.kind() == Kind::Pin {
            self.pins[(whole.body / 256) as usize] = true;
        }
        self.judge.judge(whole);
    }

    // Keeps what a piece leaves of a record.
    fn keep(&mut self, part: Part)
        ensures { self.new ≡ record { part = part; seen = self.old.seen; judge = self.old.judge; pins = self.old.pins } }
    {
        self.part = part;
    }

    // Takes the next piece, of any length.
    pub fn piece(&mut self, bytes: &[u8])
        ensures { self.new ≡ checked self.old bytes.now }
    {
        self.seen = counted(self.seen, bytes.len());
        let mut records = self.part.records(bytes);
        // After a `for` over `&mut records` no proof knows what it left.
        while let Some(whole) = records.next() {
            self.record(whole);
        }
        self.keep(records.remainder());
    }

    // Why the log is refused, once its last piece is taken; a wrong length comes before all else.
    #[tactic(auto, unfolding(crate::specs::Check::refusal_in))]
    pub fn refusal(&self) -> Option<Fault>
        ensures { result ≡ refusal_in self.now }
    {
        if self.part.between() && self.seen <= LONGEST {
            self.judge.found()
        } else {
            Some(Fault::Malformed)
        }
    }

    // Which pins the log drives.
    pub fn pins(&self) -> &[bool; 256]
        ensures { result.now ≡ pins_in self.now }
    {
        &self.pins
    }
}
