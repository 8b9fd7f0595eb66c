// How a timer's count goes: its waveform, the next count, and the ticks before anything happens.

#![tactic(auto)]

pub mod count;
pub mod distance;
pub mod kinds;
