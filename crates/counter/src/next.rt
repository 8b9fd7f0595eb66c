// The next event, and the flags that its tick will raise.

ghost use Rattle.std.specs.Prelude.{◌≡◌, true};
ghost use Rattle.tick.specs.Distance.{distance_of};
ghost use Rattle.counter.specs.Modes.{running_of};
ghost use Rattle.counter.specs.Next.{next_at, next_of, next_flags};
ghost use Rattle.counter.specs.Setting.{setting_of, moving_of};
ghost use Rattle.counter.specs.Valid.{Valid};

use crate::state::Timer;
use tick::distance::Distance;
use time::units::{Cycle, Ticks};

// The next event's cycle and the flags, as TIFR bits, that its tick will raise; or none where the counter does not run.
#[derive(Clone, Copy)]
pub enum Next {
    At(Cycle, u8),
    Never,
}

impl Timer {
    // The next event's cycle, of a counter that runs: the cycle that the Rust's schedule computes.
    pub fn next_cycle(self) -> Cycle
        requires { (Valid self) × (running_of self ≡ true) }
        ensures { result.0 ≡ next_at self }
    {
        let p = self.prescaler();
        let clock = self.clock;
        let sync = clock.sync;
        let last = p.ticks(sync);
        let mode = self.mode();
        let wave = self.wave_at(mode);
        let counter = self.counter;
        let ocr = self.ocr;
        let gap = wave.gap(counter, ocr) as u64;
        p.cycle(Ticks(last.0 + (gap + 1)))
    }

    // The distance of the next event, whether the counter runs or not.
    pub fn distance(self) -> Distance
        requires { Valid self }
        ensures { result ≡ distance_of (setting_of self) (moving_of self) }
    {
        let mode = self.mode();
        let wave = self.wave_at(mode);
        self.setting(mode, wave).distance(self.moving())
    }

    // The flags of the next event, 0 where there is none.
    pub fn next_flags(self) -> u8
        requires { Valid self }
        ensures { result ≡ next_flags self }
    {
        if self.running() {
            let d = self.distance();
            d.flags
        } else {
            0
        }
    }

    // The next event.
    pub fn next(self) -> Next
        requires { Valid self }
        ensures { result ≡ next_of self }
    {
        if self.running() {
            let d = self.distance();
            Next::At(self.next_cycle(), d.flags)
        } else {
            Next::Never
        }
    }
}
