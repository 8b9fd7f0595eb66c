// The bench shell for Rust and C: calls on a lent timer and on a lent board, and a watchdog by value.

#![tactic(auto)]

pub mod boards;
pub mod exports;
pub mod lists;
pub mod shifts;
pub mod watchdogs;
