// What the watchdog's oscillator moves.

ghost use Rattle.std.specs.Prelude.{◌≡◌};
ghost use Rattle.wdtcsr.specs.State.{shut};

use time::units::Cycle;

// WDTCSR without WDCE: the flag, the interrupt's and the reset's enable, and the prescaler, 0 to 9.
#[repr(C)]
#[derive(Clone, Copy, Default)]
pub struct Control {
    pub wdif: bool,
    pub wdie: bool,
    pub wde: bool,
    pub wdp: u8,
}

// The timed sequence: whether the last write was of WDCE and WDE together, and its cycle. A flag with a cycle, and no
// `Option`, since C holds it.
#[repr(C)]
#[derive(Clone, Copy)]
pub struct Window {
    pub wdce: bool,
    pub since: Cycle,
}

// What the oscillator moves.
#[repr(C)]
#[derive(Clone, Copy)]
pub struct Moving {
    pub count: u32,
    pub control: Control,
    pub window: Window,
}

impl Window {
    // No write can take WDE or the prescaler.
    pub fn shut() -> Window
        ensures { result ≡ shut }
    {
        Window {
            wdce: false,
            since: Cycle(0),
        }
    }
}
