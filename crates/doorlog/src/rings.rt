// A log of up to 6,000 records in an area that the caller lends.

ghost use Rattle.std.specs.Prelude.{◌≡◌};
ghost use Rattle.record_ring.specs.Log.{empty, added, released, place_of, Valid};
ghost use Rattle.doorlog.specs.Rings.{answer_of, answered};

use record_ring::{Refusal, Ring};

// A record's bytes.
#[repr(C)]
#[derive(Clone, Copy)]
pub struct Entry {
    pub bytes: [u8; 10],
}

// number is the refusal's, 0 for none: C reads no `Result`. The log is to be kept.
#[repr(C)]
#[derive(Clone, Copy)]
pub struct Answer {
    pub number: u8,
    pub ring: Ring,
}

impl Answer {
    // The log after a call, or the refusal and the log before it.
    fn of(before: Ring, after: Result<Ring, Refusal>) -> Answer
        ensures { result ≡ answer_of before after }
    {
        match after {
            Ok(ring) => Answer { number: 0, ring },
            Err(refusal) => Answer {
                number: refusal.number(),
                ring: before,
            },
        }
    }
}

// Yields a log that holds no record.
#[unsafe(no_mangle)]
pub extern "C" fn paddlemauve_log() -> Ring
    ensures { (result ≡ empty) × Valid result }
{
    Ring::new()
}

// Adds a record at the next place. A refused call changes nothing.
#[unsafe(no_mangle)]
pub extern "C" fn paddlemauve_log_add(ring: Ring, area: &mut [u8], entry: Entry) -> Answer
    requires { Valid ring }
    ensures { ((result, area.new) ≡ answered ring (added ring area.old entry.bytes)) × Valid result.ring }
{
    Answer::of(ring, ring.add(area, entry.bytes))
}

// Releases the oldest records, as many as are said. A refused call changes nothing.
#[unsafe(no_mangle)]
pub extern "C" fn paddlemauve_log_release(ring: Ring, area: &[u8], count: usize) -> Answer
    requires { Valid ring }
    ensures { ((result, area.now) ≡ answered ring (released ring area.now count)) × Valid result.ring }
{
    Answer::of(ring, ring.release(area, count))
}

// Yields how many records are held.
#[unsafe(no_mangle)]
pub extern "C" fn paddlemauve_log_count(ring: Ring) -> usize
    ensures { result ≡ ring.held }
{
    ring.count()
}

// Yields the place of the oldest record held; where none is held, that of the next.
#[unsafe(no_mangle)]
pub extern "C" fn paddlemauve_log_oldest(ring: Ring) -> usize
    requires { Valid ring }
    ensures { result ≡ place_of ring 0 }
{
    ring.oldest()
}
