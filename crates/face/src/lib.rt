// C's face: each public operation under the name `gfaffix_NAME`, one module each, with the contract that the operation has. include/gfaffix.h declares them.
#![tactic(auto)]

pub mod check_steps;
pub mod check_transform;
pub mod collapse;
pub mod collapse_all;
pub mod enumerate_branch;
pub mod expand;
pub mod get_shared_prefix;
pub mod live_letters;
pub mod parse_and_transform_paths;
pub mod parse_header;
pub mod print_active_subgraph;
pub mod print_transformations;
pub mod read_gfa;
pub mod spell_walk;
pub mod transform_walk;
