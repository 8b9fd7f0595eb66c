// A record log that comes in pieces, cut anywhere: its whole records, one after the other.

#![tactic(auto)]

ghost use Rattle.std.specs.Prelude.{◌≡◌, ◌/◌, ◌%◌, ◌<◌, ◌^◌, length};
ghost use Rattle.std.specs.Iterator.{item_count};
ghost use Rattle.pieces.specs.Pieces.{start, between, begun, shifted, inside, wholes, number_of_kind, kind_of, cycle_of, IsRecord, Takes};

use records::numbers::{eight, two};

// What a record says: a pin's output, a timer's flag or trigger, or the watchdog.
#[derive(Clone, Copy, PartialEq, Eq)]
pub enum Kind {
    Pin,
    Flag,
    Trigger,
    Watchdog,
}

// A record's ten bytes: kind and cycle in the first eight, then the body.
#[derive(Clone, Copy)]
pub struct Whole {
    pub head: u64,
    pub body: u16,
}

// The last ten bytes, as eight and two, and how many of them are of a record that is not whole.
#[derive(Clone, Copy)]
pub struct Part {
    have: u8,
    head: u64,
    body: u16,
}

// The records that a piece makes whole, one after the other: the part after the bytes that are taken, and those that are left.
#[derive(Drop)]
pub struct Records<'a> {
    part: Part,
    rest: &'a [u8],
}

impl Whole {
    // The kind, two bits.
    pub fn kind(self) -> Kind
        ensures { number_of_kind result ≡ kind_of self }
    {
        match self.head / 0x4000_0000_0000_0000 {
            0 => Kind::Pin,
            1 => Kind::Flag,
            2 => Kind::Trigger,
            _ => Kind::Watchdog,
        }
    }

    // The cycle, 62 bits.
    pub fn cycle(self) -> u64
        ensures { result ≡ cycle_of self }
    {
        self.head % 0x4000_0000_0000_0000
    }
}

// How many bytes of a record there are with one more; the tenth ends it.
fn begun(have: u8) -> u8
    ensures { result ≡ begun have }
{
    if have < 9 { have + 1 } else { 0 }
}

impl Part {
    // Before a log's first byte.
    pub fn new() -> Part
        ensures { result ≡ start }
    {
        Part {
            have: 0,
            head: 0,
            body: 0,
        }
    }

    // Is no record begun?
    pub fn between(self) -> bool
        ensures { result ≡ between self }
    {
        self.have == 0
    }

    // The last ten bytes as a record.
    fn whole(self) -> Whole
        ensures { result ≡ inside self }
    {
        Whole {
            head: self.head,
            body: self.body,
        }
    }

    // The part after one byte more.
    #[tactic(auto, unfolding(crate::specs::Pieces::shifted))]
    fn after(self, b: u8) -> Part
        ensures { result ≡ shifted self b }
    {
        Part {
            have: begun(self.have),
            head: self.head % 0x100_0000_0000_0000 * 256 + (self.body / 256) as u64,
            body: self.body % 256 * 256 + b as u16,
        }
    }

    // The part after a record's ten bytes, where none was begun.
    #[tactic(auto, using(crate::proofs::Cuts::ten_bytes))]
    fn ten(bytes: &[u8; 10]) -> Part
        ensures { IsRecord bytes.now result }
    {
        Part {
            have: 0,
            head: eight(bytes, 0),
            body: two(bytes, 8) as u16,
        }
    }

    // The records that a piece makes whole after this part.
    pub fn records(self, piece: &[u8]) -> Records<'_>
        ensures part { result.part ≡ self }
        ensures rest { result.rest.now ≡ piece.now }
    {
        Records {
            part: self,
            rest: piece,
        }
    }
}

impl Records<'_> {
    // The part after the bytes that are taken.
    pub fn remainder(&self) -> Part
        ensures { result ≡ self.now.part }
    {
        self.part
    }
}

impl Iterator for Records<'_> {
    type Item = Whole;

    ghost next_gives = { Takes };

    ghost remaining = { item_count (λ s. wholes s.part s.rest.now) };

    // Takes a record's ten bytes at once where none is begun and they are there, else byte by byte to a record's end.
    fn next(&mut self) -> Option<Whole> {
        if self.part.between()
            && let Some((ten, rest)) = self.rest.split_first_chunk::<10>()
        {
            let part = Part::ten(ten);
            *self = Records { part, rest };
            return Some(part.whole());
        }
        while let Some((b, rest)) = self.rest.split_first() {
            *self = Records {
                part: self.part.after(*b),
                rest,
            };
            if self.part.between() {
                return Some(self.part.whole());
            }
        }
        None
    }
}
