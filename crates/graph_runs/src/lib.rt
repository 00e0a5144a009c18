// Cases of the operations on graphs, walks and tables, for replay: those that lend the same memory in one module.
#![tactic(auto)]

pub mod changing;
pub mod readers;
pub mod rooms;
