// How far the next event lies, and what its tick will raise.

ghost use Rattle.std.specs.Prelude.{◌≡◌};
ghost use Rattle.tick.specs.Distance.{distance_of};
ghost use Rattle.tick.specs.Sound.{Steady};

use crate::setting::{Moving, Setting};

// Ticks until the next event's; the flags, as TIFR bits, that its tick will raise; and how many compares were looked at to know it.
#[repr(C)]
#[derive(Clone, Copy)]
pub struct Distance {
    pub ticks: u32,
    pub flags: u8,
    pub looked: u8,
}

impl Setting {
    // The distance: the flags are those of the tick itself, at what the quiet ticks before it leave.
    pub fn distance(self, m: Moving) -> Distance
        requires { Steady self.wave m }
        ensures { result ≡ distance_of self m }
    {
        let wave = self.wave;
        let counter = m.counter;
        let ocr = m.ocr;
        let found = wave.search(counter, ocr);
        let gap = found.gap;
        let near = m.skip(wave, gap);
        let e = self.events(near, wave.top(ocr[0]));
        Distance {
            ticks: gap + 1,
            flags: self.raised(e),
            looked: found.looked,
        }
    }
}
