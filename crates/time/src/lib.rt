// Time: cycles and ticks, the clock that a timer keeps, and what holds its counter.

#![tactic(auto)]

pub mod clock;
pub mod halts;
pub mod units;
