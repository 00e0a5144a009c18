// C's face of enumerate_branch.
ghost use Rattle.std.specs.Prelude.{◌≡◌};
ghost use Rattle.asking.specs.EnumerateBranch.{outcome, branch_outcome};

use gfaffix::enumerate_branch::Branch;
use store::Counts;

#[unsafe(no_mangle)]
pub extern "C" fn gfaffix_enumerate_branch(
    nodes: &[u64],
    text: &[u8],
    links: &[u64],
    c: Counts,
    v: u64,
    members: &mut [u64],
    ends: &mut [u64],
) -> Branch
    ensures { outcome result members.new ends.new ≡ branch_outcome nodes.now text.now links.now c v members.old ends.old }
{
    gfaffix::enumerate_branch::enumerate_branch(nodes, text, links, c, v, members, ends)
}
