// What a start, a list of writes, a shift and the watchdog's calls answer, in numbers, and a held timer's shape, for Rust and C.

#![tactic(auto)]

pub mod lists;
pub mod shapes;
pub mod shifts;
pub mod starts;
pub mod watchdogs;
