// The record area: what a call reports, as records of ten bytes one after the other.

#![tactic(auto)]

pub mod numbers;

ghost use Rattle.std.specs.Prelude.{◌≡◌, cond, ◌+◌, ◌≤◌, length, replicate, take, ◌++◌, reverse};
ghost use Rattle.std.proofs.lemmas.List.Edits.{sets};
ghost use Rattle.records.specs.Records.{bytes_of, record_of, records_of, only, fits};

// A record without its cycle: its kind (2 bits) and its body (16).
#[derive(Clone, Copy)]
pub struct Entry {
    pub kind: u8,
    pub body: u16,
}

// Writes a record's ten bytes at a place of the area; yields the place after it.
pub fn put(area: &mut [u8], at: usize, cycle: u64, entry: Entry) -> usize
    requires { at + 10 ≤ length area.old }
    ensures { (result ≡ at + 10) × (area.new ≡ sets area.old at (record_of cycle entry)) }
{
    let head = ((entry.kind % 4) as u64) * 0x4000_0000_0000_0000 + cycle % 0x4000_0000_0000_0000;
    let body = entry.body;
    laid(area, at, swapped(head), body / 256 + body % 256 * 256)
}

// The eight bytes of a word in the other order.
pub fn swapped(c: u64) -> u64
    ensures { reverse (bytes_of 8 result) ≡ bytes_of 8 c }
{
    let b7 = c % 256;
    let b6 = c / 0x100 % 256;
    let b5 = c / 0x1_0000 % 256;
    let b4 = c / 0x100_0000 % 256;
    let b3 = c / 0x1_0000_0000 % 256;
    let b2 = c / 0x100_0000_0000 % 256;
    let b1 = c / 0x1_0000_0000_0000 % 256;
    let b0 = c / 0x100_0000_0000_0000 % 256;
    b0 + 256 * (b1 + 256 * (b2 + 256 * (b3 + 256 * (b4 + 256 * (b5 + 256 * (b6 + 256 * b7))))))
}

// Writes a word and a half word at a place of the area, each with its low byte first; yields the place after them. It is a
// function of its own, with the word as a parameter: so LLVM makes one store of the eight bytes.
pub fn laid(area: &mut [u8], at: usize, s: u64, body: u16) -> usize
    requires { at + 10 ≤ length area.old }
    ensures { (result ≡ at + 10) × (area.new ≡ sets area.old at (reverse (bytes_of 8 s) ++ reverse (bytes_of 2 body))) }
{
    area[at] = (s % 256) as u8;
    area[at + 1] = (s / 0x100 % 256) as u8;
    area[at + 2] = (s / 0x1_0000 % 256) as u8;
    area[at + 3] = (s / 0x100_0000 % 256) as u8;
    area[at + 4] = (s / 0x1_0000_0000 % 256) as u8;
    area[at + 5] = (s / 0x100_0000_0000 % 256) as u8;
    area[at + 6] = (s / 0x1_0000_0000_0000 % 256) as u8;
    area[at + 7] = (s / 0x100_0000_0000_0000 % 256) as u8;
    area[at + 8] = (body % 256) as u8;
    area[at + 9] = (body / 0x100 % 256) as u8;
    at + 10
}

// Writes a record where it is wanted; yields the place after what was written.
pub fn also(area: &mut [u8], at: usize, cycle: u64, wanted: bool, entry: Entry) -> usize
    requires { at + 10 ≤ length area.old }
    ensures { (result ≡ at + length (records_of cycle (only wanted entry))) × (area.new ≡ sets area.old at (records_of cycle (only wanted entry))) }
{
    if wanted {
        put(area, at, cycle, entry)
    } else {
        at
    }
}

// The records of one call, at most eleven, before it is known whether they fit the area.
#[derive(Clone, Copy)]
pub struct Log {
    pub bytes: [u8; 110],
    pub len: usize,
}

impl Log {
    // A log without a record.
    pub fn new() -> Log
        ensures { result ≡ record { bytes = replicate 110 0; len = 0 } }
    {
        Log {
            bytes: [0u8; 110],
            len: 0,
        }
    }

    // Writes the log at a place of the area if it fits there; yields whether it did. Nothing changes where it does not.
    pub fn write(self, area: &mut [u8], at: usize) -> bool
        requires { (self.len ≤ 110) × (at ≤ length area.old) }
        ensures { (result ≡ fits area.old at self.len) × (area.new ≡ cond result (sets area.old at (take self.len self.bytes)) area.old) }
    {
        let len = self.len;
        if area.len() - at < len {
            return false;
        }
        let bytes = self.bytes;
        let mut i = 0;
        while i < len {
            area[at + i] = bytes[i];
            i += 1;
        }
        true
    }
}
