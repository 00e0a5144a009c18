// Lines of GFA text: fields, names, steps, and what a line alone is refused for.
#![tactic(auto)]

pub mod header;
pub mod names;
pub mod pieces;
pub mod steps;
