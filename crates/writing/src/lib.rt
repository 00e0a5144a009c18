// Text out: the live part of a graph, and the table.
#![tactic(auto)]

pub mod along;
pub mod graph;
pub mod marks;
pub mod put;

// 01's number, and how many bytes were written. C gets it.
#[repr(C)]
#[derive(Clone, Copy)]
pub struct Written {
    pub number: u64,
    pub len: usize,
}
