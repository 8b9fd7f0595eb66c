// Calls that change what is kept of a timer: what each changes of it, and the reply.

#![tactic(auto)]

pub mod edges;
pub mod halts;
pub mod onward;
pub mod resets;
mod stands;
