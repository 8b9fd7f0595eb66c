// The watchdog's own oscillator: its ticks, its next time-out, and the time that passes by them.

#![tactic(auto)]

pub mod next;
pub mod passing;
pub mod state;

use time::units::{Cycle, Prescaler};

// A tick falls at each multiple of 125 cycles.
const OSCILLATOR: Prescaler = Prescaler {
    origin: Cycle(0),
    divisor: 125,
};
