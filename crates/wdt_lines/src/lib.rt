// Lines on the script's watchdog: what makes it, its calls, and what is shown of it. Each puts its answer on a page, without the line feed.

#![tactic(auto)]

pub mod asked;
pub mod called;
pub mod shown;
