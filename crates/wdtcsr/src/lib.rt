// WDTCSR and the count below it: what a write, a read, WDR, serving and a tick of the watchdog do.

#![tactic(auto)]

pub mod register;
pub mod state;
pub mod timeouts;
