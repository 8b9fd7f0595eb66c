// Time passes: quiet ticks in one step, and time-outs one by one.

ghost use Rattle.std.specs.Prelude.{◌≤◌, ◌<◌, ◌^◌, ◌≡◌, false};
ghost use Rattle.oscillator.specs.State.{Valid};
ghost use Rattle.oscillator.specs.Oscillator.{ticks, synced, is_due, Ready, Finishes, Advances};

use crate::OSCILLATOR;
use crate::state::Watchdog;
use records::put;
use time::units::{Cycle, Ticks};
use wdtcsr::state::Moving;

// What a run leaves, the bytes written, and its last tick where it stopped before a time-out whose record does not fit.
#[derive(Clone, Copy)]
pub struct Finished {
    pub moving: Moving,
    pub written: usize,
    pub paused: Option<Ticks>,
}

// Time-out by time-out up to a tick, or to the first whose record does not fit.
#[tactic(auto, using(crate::proofs::Loop::near_cycle))]
fn run(moving: Moving, from: Ticks, end: Ticks, area: &mut [u8]) -> Finished
    requires { Ready moving from.0 end.0 }
    ensures { Finishes moving from.0 end.0 area.old result area.new }
{
    let mut moving = moving;
    let mut at = from.0;
    let mut written = 0;
    while !moving.is_quiet(end.0 - at) {
        let gap = u64::from(moving.gap());
        if area.len() - written < 10 {
            return Finished {
                moving: moving.skip(gap),
                written,
                paused: Some(Ticks(at + gap)),
            };
        }
        at += gap + 1;
        let cycle = OSCILLATOR.cycle(Ticks(at));
        written = put(area, written, cycle.0, moving.timeout());
        moving = moving.timed_out();
    }
    Finished {
        moving: moving.skip(end.0 - at),
        written,
        paused: None,
    }
}

// The watchdog after an advance, the bytes written, and its sync cycle where it stopped before the cycle.
#[derive(Clone, Copy)]
pub struct Advanced {
    pub watchdog: Watchdog,
    pub written: usize,
    pub paused: Option<Cycle>,
}

impl Watchdog {
    // The watchdog at a cycle that no time-out lies at or before: one step.
    #[tactic(auto, using(crate::proofs::Syncs::sync_steps), unfolding(crate::specs::Oscillator::due))]
    pub fn sync(self, cycle: Cycle) -> Watchdog
        requires { (Valid self) × (self.latest.0 ≤ cycle.0) × (cycle.0 < 2 ^ 62) × (is_due self cycle.0 ≡ false) }
        ensures { result ≡ synced ticks self cycle.0 }
    {
        let first = OSCILLATOR.ticks(self.sync);
        let end = OSCILLATOR.ticks(cycle);
        self.with(self.moving.skip(end.0 - first.0)).synced(cycle)
    }

    // The watchdog at a cycle, or paused before the first time-out whose record does not fit the area.
    #[tactic(auto, using(crate::proofs::Advances::last_cycle))]
    pub fn advance(self, cycle: Cycle, area: &mut [u8]) -> Advanced
        requires { (Valid self) × (self.latest.0 ≤ cycle.0) × (cycle.0 < 2 ^ 62) }
        ensures { Advances self cycle.0 area.old result area.new }
    {
        let first = OSCILLATOR.ticks(self.sync);
        let end = OSCILLATOR.ticks(cycle);
        let run = run(self.moving, first, end, area);
        let paused = run.paused.map(|at| self.sync.later(OSCILLATOR.cycle(at)));
        Advanced {
            watchdog: self.with(run.moving).synced(paused.unwrap_or(cycle)),
            written: run.written,
            paused,
        }
    }
}
