// One tick with its records.

#![tactic(auto)]

pub mod distance;
pub mod flags;
pub mod happenings;
pub mod outputs;
pub mod setting;
pub mod tick;
