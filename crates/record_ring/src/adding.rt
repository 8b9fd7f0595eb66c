// A record goes into the area.

ghost use Rattle.std.specs.Prelude.{◌≡◌, IfOk, OnErr};
ghost use Rattle.record_ring.specs.Log.{added, Valid};

use crate::{BYTES, PLACES, Refusal, Ring};

impl Ring {
    // Adds a record at the next place. A refused call changes nothing: the area stays as it was, and the caller keeps the log that it has.
    #[tactic(auto, using(crate::proofs::Places::put_mid_sets), unfolding(crate::specs::Log::added))]
    pub fn add(self, area: &mut [u8], bytes: [u8; 10]) -> Result<Ring, Refusal>
        requires { Valid self }
        ensures added { (result, area.new) ≡ added self area.old bytes }
        ensures valid { IfOk result Valid }
        ensures refused { OnErr result (area.new ≡ area.old) }
    {
        if area.len() != BYTES {
            return Err(Refusal::Area);
        }
        if self.held == PLACES {
            return Err(Refusal::Full);
        }
        let at = 10 * self.next;
        area[at..at + 10].copy_from_slice(&bytes);
        Ok(Ring {
            next: (self.next + 1) % PLACES,
            held: self.held + 1,
        })
    }
}
