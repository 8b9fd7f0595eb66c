// Any call on a held timer, by value: one that leaves what is kept changes a few parts alone, any other is left to others.

#![tactic(auto)]

pub mod asked;
pub mod asks;
pub mod looking;
