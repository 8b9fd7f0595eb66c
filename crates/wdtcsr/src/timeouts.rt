// The count: ticks that only count in one step, and the time-out.

ghost use Rattle.std.specs.Prelude.{◌<◌, ◌≡◌, true};
ghost use Rattle.wdtcsr.specs.State.{running, Sound};
ghost use Rattle.wdtcsr.specs.Timeouts.{period_of, resets, timed_out, timeout, linear, gap_of, is_quiet};

use crate::state::{Control, Moving, Window};
use records::Entry;

impl Control {
    // Does a time-out reset, and not interrupt.
    fn resets(self) -> bool
        ensures { result ≡ resets self }
    {
        self.wde && (self.wdif || !self.wdie)
    }
}

impl Moving {
    // Does the oscillator count.
    pub fn running(self) -> bool
        ensures { result ≡ running self }
    {
        self.control.wde || self.control.wdie
    }

    // The ticks from one time-out to the next.
    #[tactic(auto, unfolding(crate::specs::Timeouts::period_of))]
    fn period(self) -> u32
        requires { self.control.wdp < 10 }
        ensures { result ≡ period_of self.control.wdp }
    {
        2048 << self.control.wdp
    }

    // The ticks that only count before the next time-out's.
    #[tactic(auto, unfolding(crate::specs::Timeouts::gap_of))]
    pub fn gap(self) -> u32
        requires { self.control.wdp < 10 }
        ensures { result ≡ gap_of self }
    {
        self.period().saturating_sub(self.count).saturating_sub(1)
    }

    // Is there no time-out within so many ticks.
    pub fn is_quiet(self, n: u64) -> bool
        requires { self.control.wdp < 10 }
        ensures { result ≡ is_quiet n self }
    {
        !self.running() || n <= u64::from(self.gap())
    }

    // So many ticks in one step.
    #[tactic(auto, using(crate::proofs::Bounds::count_small), unfolding(crate::specs::Timeouts::linear))]
    pub fn skip(self, n: u64) -> Moving
        requires { (Sound self) × (is_quiet n self ≡ true) }
        ensures { result ≡ linear n self }
    {
        if self.running() {
            Moving {
                count: self.count + n as u32,
                ..self
            }
        } else {
            self
        }
    }

    // What a time-out leaves.
    #[tactic(auto, unfolding(crate::specs::Timeouts::timed_out))]
    pub fn timed_out(self) -> Moving
        ensures { result ≡ timed_out self }
    {
        if self.control.resets() {
            let control = Control {
                wde: true,
                ..Control::default()
            };
            Moving {
                count: 0,
                control,
                window: Window::shut(),
            }
        } else {
            let control = Control {
                wdif: true,
                ..self.control
            };
            Moving {
                count: 0,
                control,
                ..self
            }
        }
    }

    // A time-out's record.
    #[tactic(auto, unfolding(crate::specs::Timeouts::timeout))]
    pub fn timeout(self) -> Entry
        ensures { result ≡ timeout self }
    {
        let body = if self.control.resets() { 2 } else { 1 };
        Entry { kind: 3, body }
    }
}
