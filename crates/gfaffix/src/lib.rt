// The public operations, one module each. None asks anything of its caller: whatever the arrays and counts are, it answers.
#![tactic(auto)]

pub use asking::{enumerate_branch, get_shared_prefix, live_letters};
pub use checking::check_transform;
pub use folding::{collapse, collapse_all};
pub use records::check_steps;
pub use texts::{
    parse_and_transform_paths, parse_header, print_active_subgraph, print_transformations, read_gfa,
};
pub use walking::{expand, spell_walk, transform_walk};
