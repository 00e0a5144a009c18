// The public operations that ask of a graph. `gfaffix` hands them out.
#![tactic(auto)]

pub mod enumerate_branch;
pub mod get_shared_prefix;
pub mod live_letters;
