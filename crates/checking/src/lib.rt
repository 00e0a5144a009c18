// The public checker. `gfaffix` hands it out.
#![tactic(auto)]

pub mod check_transform;
