// Cases of the operations on text, for replay: reading in one module, writing in the other.
#![tactic(auto)]

pub mod parsers;
pub mod printers;
