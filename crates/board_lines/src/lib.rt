// Lines that order the board. What a line asks for is read without the board, which is large, and worked on it by a second call, with an area for each timer.

#![tactic(auto)]

pub mod asked;
pub mod ordered;
mod shown;
