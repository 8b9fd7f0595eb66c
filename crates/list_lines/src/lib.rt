// Lines that write to registers by lists. Each puts its answer on a page, without the line feed.

#![tactic(auto)]

pub mod made;
pub mod worked;
