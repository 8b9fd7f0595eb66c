// TIFR and TIMSK.

ghost use Rattle.std.specs.Prelude.{◌-◌, ◌≡◌};
ghost use Rattle.std.specs.Int.Bits.{bit_and};
ghost use Rattle.counter.specs.Parts.{flags_to};

use crate::state::{Flags, Timer};

impl Timer {
    // Writing one to a TIFR bit clears it.
    pub fn with_tifr(self, ones: u8) -> Timer
        ensures { result ≡ flags_to self (bit_and self.flags.tifr (255 - ones)) self.flags.timsk }
    {
        let was = self.flags;
        let flags = Flags {
            tifr: was.tifr & (255 - ones),
            timsk: was.timsk,
        };
        let mut t = self;
        t.flags = flags;
        t
    }

    // TIMSK keeps eight bits.
    pub fn with_timsk(self, timsk: u8) -> Timer
        ensures { result ≡ flags_to self self.flags.tifr timsk }
    {
        let was = self.flags;
        let flags = Flags {
            tifr: was.tifr,
            timsk,
        };
        let mut t = self;
        t.flags = flags;
        t
    }
}
