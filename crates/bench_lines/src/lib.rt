// What the bench answers to a line of a script, and what the line leaves of it. Nothing is read or written here: what a line asks of the file that records go to is told.

#![tactic(auto)]

pub mod desk;
mod lines;
pub mod named;
pub mod shelved;
pub mod turns;
