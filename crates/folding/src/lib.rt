// The public operations that change a graph. `gfaffix` hands them out.
#![tactic(auto)]

pub mod collapse;
pub mod collapse_all;
