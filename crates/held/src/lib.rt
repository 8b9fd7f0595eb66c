// A timer as its owner holds it, with what is kept of it, so that a call works nothing out anew that the last one knew.

#![tactic(auto)]

pub mod calls;
pub mod quick;
pub mod reply;
pub mod state;
pub mod write;
