// What the events of a rising count need of a setting, in flat numbers: an event's tick loads what it uses.

#![tactic(auto)]

pub mod bits;
pub mod drivers;
pub mod state;
