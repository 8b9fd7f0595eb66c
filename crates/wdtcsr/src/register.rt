// WDTCSR, WDR, and the interrupt's serving.

ghost use Rattle.std.specs.Prelude.{◌<◌, ◌≡◌};
ghost use Rattle.wdtcsr.specs.Wdtcsr.{bit_at, wanted_p, is_open, value_of, takes, too_long, control_to, window_to, stopped_at, written, rewound, served};

use crate::state::{Control, Moving, Window};
use time::units::Cycle;

// The bits of WDTCSR above WDP2:0, by their weights.
const WDIF: u8 = 128;

const WDIE: u8 = 64;

const WDP3: u8 = 32;

const WDCE: u8 = 16;

const WDE: u8 = 8;

// Is a bit of a value set, by its weight.
fn bit(value: u8, weight: u8) -> bool
    requires { 0 < weight }
    ensures { result ≡ bit_at value weight }
{
    value / weight % 2 == 1
}

// The prescaler that a value names.
fn wanted(value: u8) -> u8
    ensures { (result ≡ wanted_p value) × (result < 16) }
{
    u8::from(bit(value, WDP3)) * 8 + value % 8
}

impl Window {
    // Does WDCE read 1 at a cycle.
    #[tactic(auto, unfolding(crate::specs::Wdtcsr::is_open))]
    pub fn is_open(self, cycle: Cycle) -> bool
        ensures { result ≡ is_open self cycle.0 }
    {
        self.wdce && cycle.0.saturating_sub(self.since.0) <= 4
    }

    // Does a write take WDE and the prescaler.
    #[tactic(auto, unfolding(crate::specs::Wdtcsr::takes))]
    fn takes(self, value: u8, cycle: Cycle) -> bool
        ensures { result ≡ takes self value cycle.0 }
    {
        self.is_open(cycle) && !bit(value, WDCE)
    }

    // Would a write take a prescaler that there is not.
    #[tactic(auto, unfolding(crate::specs::Wdtcsr::too_long))]
    pub fn too_long(self, value: u8, cycle: Cycle) -> bool
        ensures { result ≡ too_long self value cycle.0 }
    {
        self.takes(value, cycle) && 10 <= wanted(value)
    }

    // The window after a write.
    #[tactic(auto, unfolding(crate::specs::Wdtcsr::window_to))]
    fn after(value: u8, cycle: Cycle) -> Window
        ensures { result ≡ window_to value cycle.0 }
    {
        if bit(value, WDCE) && bit(value, WDE) {
            Window {
                wdce: true,
                since: cycle,
            }
        } else {
            Window::shut()
        }
    }
}

impl Control {
    // The bits after a write, which takes WDE and the prescaler or does not.
    #[tactic(auto, unfolding(crate::specs::Wdtcsr::control_to))]
    fn write(self, value: u8, taken: bool) -> Control
        ensures { result ≡ control_to self value taken }
    {
        let wde = bit(value, WDE);
        let kept = Control {
            wdif: self.wdif && !bit(value, WDIF),
            wdie: bit(value, WDIE),
            wde: self.wde || wde,
            wdp: self.wdp,
        };
        if taken {
            Control {
                wde,
                wdp: wanted(value),
                ..kept
            }
        } else {
            kept
        }
    }
}

impl Moving {
    // WDTCSR as read at a cycle.
    #[tactic(auto, unfolding(crate::specs::Wdtcsr::value_of))]
    pub fn wdtcsr(self, cycle: Cycle) -> u8
        ensures { result ≡ value_of self cycle.0 }
    {
        let control = self.control;
        u8::from(control.wdif) * WDIF
            + u8::from(control.wdie) * WDIE
            + u8::from(8 <= control.wdp) * WDP3
            + u8::from(self.window.is_open(cycle)) * WDCE
            + u8::from(control.wde) * WDE
            + control.wdp % 8
    }

    // The count is 0 while it is stopped.
    #[tactic(auto, unfolding(crate::specs::Wdtcsr::stopped_at))]
    fn stopped(self) -> Moving
        ensures { result ≡ stopped_at self }
    {
        if self.running() { self } else { self.rewound() }
    }

    // WDTCSR is written at a cycle.
    #[tactic(auto, unfolding(crate::specs::Wdtcsr::written))]
    pub fn write(self, value: u8, cycle: Cycle) -> Moving
        ensures { result ≡ written self value cycle.0 }
    {
        let taken = self.window.takes(value, cycle);
        let written = Moving {
            count: self.count,
            control: self.control.write(value, taken),
            window: Window::after(value, cycle),
        };
        written.stopped()
    }

    // The count starts anew.
    pub fn rewound(self) -> Moving
        ensures { result ≡ rewound self }
    {
        Moving { count: 0, ..self }
    }

    // The interrupt is served, where its flag and its enable are set; with WDE the next time-out resets.
    #[tactic(auto, unfolding(crate::specs::Wdtcsr::served))]
    pub fn served(self) -> Moving
        ensures { result ≡ served self }
    {
        let control = self.control;
        if control.wdif && control.wdie {
            let control = Control {
                wdif: false,
                wdie: !control.wde,
                ..control
            };
            Moving { control, ..self }
        } else {
            self
        }
    }
}
