// Lines on the script's timer: those that make it, its calls, and what is shown of it. Each puts its answer on a page, without the line feed.

#![tactic(auto)]

pub mod asked;
pub mod called;
pub mod made;
pub mod named;
pub mod shifted;
pub mod shown;
