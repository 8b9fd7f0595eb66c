// The door rules, the log and the dump for Rust and C, by value: the caller holds a door or a log, and takes back what each call leaves.

#![tactic(auto)]

pub mod doors;
pub mod dumps;
pub mod rings;
