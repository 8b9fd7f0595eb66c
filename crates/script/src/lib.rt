// The configuration that a line of a script gives: by all its keys, or by the name of a preset and the keys that differ.

#![tactic(auto)]

pub mod configs;
mod presets;
