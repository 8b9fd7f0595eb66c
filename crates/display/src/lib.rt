// What is shown of a timer: a call's answer, and the timer as it stands.

#![tactic(auto)]

pub mod answer;
pub mod state;
