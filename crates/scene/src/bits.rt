// The TIFR bits of an event's tick, and the records that they make.

ghost use Rattle.std.specs.Prelude.{◌≡◌, ◌+◌, ◌≤◌, length};
ghost use Rattle.std.proofs.lemmas.List.Edits.{sets};
ghost use Rattle.records.specs.Records.{records_of};
ghost use Rattle.scene.specs.Scene.{on, raised_at, lines_of, told_of};

use crate::state::Scene;
use records::Entry;
use tick::flags::{line, masked, trigger_entry};
use time::units::Cycle;

// Is a bit among others.
pub fn on(bits: u8, mask: u8) -> bool
    ensures { result ≡ on bits mask }
{
    bits & mask != 0
}

impl Scene {
    // The bits that a tick at a count raises. A unit that is not there has no bit, so its compare need not be asked for.
    pub fn raised(self, count: u32, top: u32, ocr: [u32; 3]) -> u8
        ensures { result ≡ raised_at self count top ocr }
    {
        let over = if self.fast {
            count == top
        } else {
            count == self.max
        };
        masked(over, self.tov)
            | masked(count == ocr[0], self.fa)
            | masked(count == ocr[1], self.fb)
            | masked(count == top, self.capt)
            | masked(count == ocr[2], self.fc)
    }

    // The request lines.
    fn lines(self, tifr: u8) -> u8
        ensures { result ≡ lines_of self tifr }
    {
        let active = tifr & self.timsk;
        if active == 0 {
            return 0;
        }
        line(active, self.tov) * 128
            + line(active, self.fa) * 64
            + line(active, self.fb) * 32
            + line(active, self.icf) * 16
            + line(active, self.fc) * 8
    }

    // Writes the flag record of the bits raised, if there are any, and the triggers by their bits; yields the place after them.
    pub fn told(self, up: u8, tifr: u8, area: &mut [u8], at: usize, cycle: Cycle) -> usize
        requires { at + 50 ≤ length area.old }
        ensures { (result ≡ at + length (records_of cycle.0 (told_of self up tifr))) × (area.new ≡ sets area.old at (records_of cycle.0 (told_of self up tifr))) × (result ≤ at + 50) }
    {
        if up == 0 {
            return at;
        }
        let flag = Entry {
            kind: 1,
            body: (up as u16) * 256 + (self.lines(tifr) as u16),
        };
        let id = self.id;
        let flagged = records::put(area, at, cycle.0, flag);
        let first = records::also(
            area,
            flagged,
            cycle.0,
            on(up, self.fa),
            trigger_entry(1, id),
        );
        let second = records::also(area, first, cycle.0, on(up, self.fb), trigger_entry(2, id));
        let third = records::also(
            area,
            second,
            cycle.0,
            on(up, self.tov),
            trigger_entry(3, id),
        );
        records::also(area, third, cycle.0, on(up, self.icf), trigger_entry(4, id))
    }
}
