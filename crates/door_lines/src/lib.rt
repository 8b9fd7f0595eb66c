// Lines that set a door's rule, and its contact edges. Each puts its answer on a page, without the line feed.

#![tactic(auto)]

pub mod asked;
pub mod rules;
