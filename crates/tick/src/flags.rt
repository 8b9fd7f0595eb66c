// Flags, request lines and triggers, and their records.

ghost use Rattle.std.specs.Prelude.{◌+◌, ◌<◌, ◌≤◌, ◌≡◌, cond, length};
ghost use Rattle.std.proofs.lemmas.List.Edits.{sets};
ghost use Rattle.records.specs.Records.{records_of};
ghost use Rattle.tick.specs.Tick.{raised, line, lines, flag_entry, trigger_entry, flag_log_of};

use crate::happenings::Events;
use crate::outputs::bit;
use crate::setting::Setting;
use records::Entry;
use time::units::Cycle;

// A mask where it is wanted, else no bit.
pub fn masked(wanted: bool, mask: u8) -> u8
    ensures { result ≡ cond wanted mask 0 }
{
    if wanted { mask } else { 0 }
}

// A request line: is a flag both active and unmasked.
pub fn line(active: u8, mask: u8) -> u8
    ensures { (result ≡ line active mask) × (result ≤ 1) }
{
    bit(active & mask != 0)
}

// A trigger's entry.
pub fn trigger_entry(trigger: u16, id: u8) -> Entry
    requires { trigger < 16 }
    ensures { result ≡ trigger_entry trigger id }
{
    Entry {
        kind: 2,
        body: trigger * 4096 + (id as u16) * 16,
    }
}

impl Setting {
    // The TIFR bits that a tick raises.
    pub fn raised(self, e: Events) -> u8
        ensures { result ≡ raised self e }
    {
        let a = self.a;
        let b = self.b;
        let c = self.c;
        masked(e.overflow, self.tov)
            | masked(e.a, a.flag)
            | masked(e.b, b.flag)
            | masked(e.capture, self.icf)
            | masked(e.c, c.flag)
    }

    // The request lines overflow, A, B, capture and C, in the high five bits.
    pub fn lines(self, tifr: u8) -> u8
        ensures { result ≡ lines self tifr }
    {
        let a = self.a;
        let b = self.b;
        let c = self.c;
        let active = tifr & self.timsk;
        if active == 0 {
            return 0;
        }
        line(active, self.tov) * 128
            + line(active, a.flag) * 64
            + line(active, b.flag) * 32
            + line(active, self.icf) * 16
            + line(active, c.flag) * 8
    }

    // The flag entry of a tick that raises some bits and leaves TIFR so.
    pub fn flag_entry(self, up: u8, tifr: u8) -> Entry
        ensures { result ≡ flag_entry self up tifr }
    {
        Entry {
            kind: 1,
            body: (up as u16) * 256 + (self.lines(tifr) as u16),
        }
    }
}

// Writes a flag entry's record, if a flag is raised, and the triggers; yields the place after them.
pub fn put_flags(e: Events, flag: Entry, id: u8, area: &mut [u8], at: usize, cycle: Cycle) -> usize
    requires { at + 50 ≤ length area.old }
    ensures { (result ≡ at + length (records_of cycle.0 (flag_log_of flag id e))) × (area.new ≡ sets area.old at (records_of cycle.0 (flag_log_of flag id e))) × (result ≤ at + 50) }
{
    if e.overflow | e.a | e.b | e.capture | e.c {
        let flagged = records::put(area, at, cycle.0, flag);
        let first = records::also(area, flagged, cycle.0, e.a, trigger_entry(1, id));
        let second = records::also(area, first, cycle.0, e.b, trigger_entry(2, id));
        let third = records::also(area, second, cycle.0, e.overflow, trigger_entry(3, id));
        records::also(area, third, cycle.0, e.capture, trigger_entry(4, id))
    } else {
        at
    }
}
