// What a run is asked for: the program's words, and the list of protected ids.
#![tactic(auto)]

pub mod ask;
pub mod ids;
