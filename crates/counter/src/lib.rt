// The timer's work, by value: each step takes the timer and gives the timer back.

#![tactic(auto)]

pub mod advance;
pub mod flags;
pub mod fresh;
pub mod halts;
pub mod modes;
pub mod next;
pub mod registers;
pub mod setting;
pub mod state;
