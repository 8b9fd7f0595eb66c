// Time passes: by events up to a cycle, or to the first tick whose records do not fit.

ghost use Rattle.std.specs.Prelude.{◌<◌, ◌≤◌, ◌^◌, ◌≡◌, [], length};
ghost use Rattle.time.specs.Units.{cycle_at};
ghost use Rattle.wave.specs.Distance.{gap};
ghost use Rattle.passage.specs.Passage.{ticks};
ghost use Rattle.counter.specs.Modes.{mode_of, wave_of};
ghost use Rattle.counter.specs.Passage.{synced, due, advanced, sync_to, quietly, work_of, Works, Advances};
ghost use Rattle.counter.specs.Logs.{Logs, struck};
ghost use Rattle.counter.specs.Valid.{Valid};

use crate::state::Timer;
use passage::{Finished, Progress};
use records::Log;
use tick::setting::Moving;
use time::units::{Cycle, Prescaler, Ticks};

// What an advance changes: no timer is copied for it.
#[derive(Clone, Copy)]
pub struct Work {
    pub moving: Moving,
    pub sync: Cycle,
    pub written: usize,
    pub paused: bool,
}

impl Work {
    // Nothing is written: what moved, up to a cycle.
    pub fn quiet(moving: Moving, cycle: Cycle) -> Work
        ensures { result ≡ quietly moving cycle.0 }
    {
        Work {
            moving,
            sync: cycle,
            written: 0,
            paused: false,
        }
    }

    // A run's end: at the cycle, or paused at its last tick or the old sync cycle, whichever is later.
    pub fn of(f: Finished, p: Prescaler, sync: Cycle, cycle: Cycle) -> Work
        requires { cycle_at p f.at.0 < 2 ^ 64 }
        ensures { result ≡ work_of f p sync.0 cycle.0 }
    {
        let moving = f.moving;
        if f.paused {
            let last = p.cycle(f.at);
            Work {
                moving,
                sync: sync.later(last),
                written: f.to,
                paused: true,
            }
        } else {
            Work {
                moving,
                sync: cycle,
                written: f.to,
                paused: false,
            }
        }
    }
}

// The timer after an advance, the bytes written, and whether it stopped before the cycle.
#[derive(Clone, Copy)]
pub struct Advanced {
    pub timer: Timer,
    pub written: usize,
    pub paused: bool,
}

// A timer after a call, and the call's records.
#[derive(Clone, Copy)]
pub struct Logged {
    pub timer: Timer,
    pub log: Log,
}

impl Timer {
    // The timer at another sync cycle; the latest never falls.
    pub fn synced(self, cycle: Cycle) -> Timer
        ensures { result ≡ sync_to self cycle.0 }
    {
        let clock = self.clock;
        let mut t = self;
        t.clock = clock.synced(cycle);
        t
    }

    // One tick that an edge of the T pin gives, with its records.
    pub fn tick(self, cycle: Cycle) -> Logged
        requires { Valid self }
        ensures { Logs (struck self) cycle.0 result }
    {
        let mode = self.mode();
        let wave = self.wave_at(mode);
        let s = self.setting(mode, wave);
        let moving = self.moving();
        let t = s.logged(moving, cycle);
        let moved = t.moving;
        let log = t.log;
        Logged {
            timer: self.settled(moved),
            log,
        }
    }

    // What an advance changes.
    pub fn work(self, cycle: Cycle, area: &mut [u8]) -> Work
        requires { (Valid self) × (self.clock.latest.0 ≤ cycle.0) × (cycle.0 < 2 ^ 62) }
        ensures { Works self (advanced ticks self cycle.0 (length area.old)) area.old result area.new }
    {
        let clock = self.clock;
        let sync = clock.sync;
        let moving = self.moving();
        if self.running() {
            let p = self.prescaler();
            let first = p.ticks(sync);
            let end = p.ticks(cycle);
            let mode = self.mode();
            let wave = self.wave_at(mode);
            let counter = self.counter;
            let ocr = self.ocr;
            let gap = wave.gap(counter, ocr);
            let n = end.0 - first.0;
            if n <= (gap as u64) {
                return Work::quiet(moving.skip(wave, n as u32), cycle);
            }
            let s = self.setting(mode, wave);
            let start = Progress {
                moving,
                gap,
                at: first,
                to: 0,
            };
            let near = start.run(s, end, p, area);
            Work::of(near.finish(s, end, p, area), p, sync, cycle)
        } else {
            Work::quiet(moving, cycle)
        }
    }

    // The timer at a cycle, or paused before the first tick whose records do not fit the area.
    pub fn advance(self, cycle: Cycle, area: &mut [u8]) -> Advanced
        requires { (Valid self) × (self.clock.latest.0 ≤ cycle.0) × (cycle.0 < 2 ^ 62) }
        ensures { Advances (advanced ticks self cycle.0 (length area.old)) area.old result area.new }
    {
        let w = self.work(cycle, area);
        let moving = w.moving;
        let sync = w.sync;
        let t = self.settled(moving);
        Advanced {
            timer: t.synced(sync),
            written: w.written,
            paused: w.paused,
        }
    }

    // The timer at a cycle that no event lies at or before: one linear step.
    pub fn sync(self, cycle: Cycle) -> Timer
        requires { (Valid self) × (self.clock.latest.0 ≤ cycle.0) × (cycle.0 < 2 ^ 62) × (due self cycle.0 ≤ gap (wave_of self (mode_of self)) self.counter self.ocr) }
        ensures { (result ≡ (synced ticks self cycle.0).timer) × ((synced ticks self cycle.0).bytes ≡ []) × Valid result }
    {
        if self.running() {
            let clock = self.clock;
            let sync = clock.sync;
            let p = self.prescaler();
            let first = p.ticks(sync);
            let end = p.ticks(cycle);
            let mode = self.mode();
            let wave = self.wave_at(mode);
            let m = self.moving();
            let moved = m.skip(wave, (end.0 - first.0) as u32);
            self.settled(moved).synced(cycle)
        } else {
            self.synced(cycle)
        }
    }
}
