// The desk that a run works at: what the program makes of a text and a list of protected ids, by the public operations, in
// rooms that the caller lends.
#![tactic(auto)]

mod judging;
pub mod page;
pub mod taking;
pub mod work;
