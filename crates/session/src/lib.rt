// A script's lines in turn: until the page has no room for the longest answer, or a line asks something of the file that records go to. Nothing is read or written here.

#![tactic(auto)]

pub mod runs;
pub mod settles;
#[cfg(test)]
mod tests;
