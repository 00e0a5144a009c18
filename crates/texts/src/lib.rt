// The public operations on text. `gfaffix` hands them out.
#![tactic(auto)]

pub mod parse_and_transform_paths;
pub mod parse_header;
pub mod print_active_subgraph;
pub mod print_transformations;
pub mod read_gfa;
