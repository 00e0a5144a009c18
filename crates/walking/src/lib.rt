// The public operations on walks and event lists. `gfaffix` hands them out.
#![tactic(auto)]

pub mod expand;
pub mod spell_walk;
pub mod transform_walk;
