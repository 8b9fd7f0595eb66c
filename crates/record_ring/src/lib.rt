// A log of up to 6,000 records of ten bytes in a lent area, which gives the space of released records back. A log goes in
// by value and comes back.

#![tactic(auto)]

mod adding;
mod releasing;

ghost use Rattle.std.specs.Prelude.{◌≡◌};
ghost use Rattle.record_ring.specs.Log.{empty, place_of, refusal_number, Valid};

// How many records are held at most, and the bytes of the area that they lie in.
pub const PLACES: usize = 6000;

pub const BYTES: usize = 60000;

// C keeps a log between the calls, so that it is valid is asked by the calls and no part of the type.
#[repr(C)]
#[derive(Clone, Copy)]
pub struct Ring {
    // The place of the next record, 0 to 5,999.
    pub next: usize,
    // How many records are held, 0 to 6,000.
    pub held: usize,
}

// Why a call is refused.
#[derive(Clone, Copy, PartialEq, Eq)]
pub enum Refusal {
    // 6,000 records are held.
    Full,
    // Fewer are held than are to be released.
    NotHeld,
    // The area has not 60,000 bytes.
    Area,
}

impl Refusal {
    // Its number in answers.
    pub fn number(self) -> u8
        ensures { result ≡ refusal_number self }
    {
        match self {
            Refusal::Full => 19,
            Refusal::NotHeld => 20,
            Refusal::Area => 21,
        }
    }
}

impl Ring {
    // A log that holds no record.
    pub fn new() -> Ring
        ensures { (result ≡ empty) × Valid result }
    {
        Ring { next: 0, held: 0 }
    }

    // How many records are held: as many may be released.
    pub fn count(self) -> usize
        ensures { result ≡ self.held }
    {
        self.held
    }

    // The place of the oldest record held, from which it is read; where none is held, that of the next.
    #[tactic(auto, unfolding(crate::specs::Log::place_of))]
    pub fn oldest(self) -> usize
        requires { Valid self }
        ensures { result ≡ place_of self 0 }
    {
        (self.next + (PLACES - self.held)) % PLACES
    }
}
