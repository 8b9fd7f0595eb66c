// The next event.

ghost use Rattle.std.specs.Prelude.{◌≡◌};
ghost use Rattle.oscillator.specs.State.{Valid};
ghost use Rattle.oscillator.specs.Oscillator.{next_of, is_due};

use crate::OSCILLATOR;
use crate::state::Watchdog;
use time::units::{Cycle, Ticks};

impl Watchdog {
    // The next event: the cycle of the next time-out, or none while the watchdog is stopped.
    #[tactic(auto, using(crate::proofs::Syncs::next_small, crate::proofs::Syncs::next_fits), unfolding(crate::specs::Oscillator::next_of, crate::specs::Oscillator::next_at))]
    pub fn next(self) -> Option<Cycle>
        requires { Valid self }
        ensures { result ≡ next_of self }
    {
        if !self.moving.running() {
            return None;
        }
        let last = OSCILLATOR.ticks(self.sync);
        let gap = u64::from(self.moving.gap());
        Some(OSCILLATOR.cycle(Ticks(last.0 + (gap + 1))))
    }

    // Does the next event lie at or before a cycle.
    #[tactic(auto, unfolding(crate::specs::Oscillator::next_of, crate::specs::Oscillator::is_due))]
    pub fn is_due(self, cycle: Cycle) -> bool
        requires { Valid self }
        ensures { result ≡ is_due self cycle.0 }
    {
        self.next().is_some_and(|at| at.0 <= cycle.0)
    }
}
