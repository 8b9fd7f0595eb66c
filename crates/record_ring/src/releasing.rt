// The shell has read records, and their places are free.

ghost use Rattle.std.specs.Prelude.{◌≡◌, IfOk};
ghost use Rattle.record_ring.specs.Log.{released, Valid};

use crate::{BYTES, Refusal, Ring};

impl Ring {
    // Releases the oldest records, as many as are said. A refused call changes nothing: the caller keeps the log that it has.
    #[tactic(auto, unfolding(crate::specs::Log::released))]
    pub fn release(self, area: &[u8], count: usize) -> Result<Ring, Refusal>
        requires { Valid self }
        ensures released { (result, area.now) ≡ released self area.now count }
        ensures valid { IfOk result Valid }
    {
        if area.len() != BYTES {
            return Err(Refusal::Area);
        }
        if self.held < count {
            return Err(Refusal::NotHeld);
        }
        Ok(Ring {
            next: self.next,
            held: self.held - count,
        })
    }
}
