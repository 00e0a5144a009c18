// A collapse, in the arrays that hold the graph. Who calls these has tested what they require.
#![tactic(auto)]

pub mod copies;
pub mod nodes;
pub mod parts;
