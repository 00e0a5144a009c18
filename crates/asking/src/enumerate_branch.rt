// The groups of an oriented node.
ghost use Rattle.std.specs.Prelude.{◌≡◌};
ghost use Rattle.asking.specs.EnumerateBranch.{answered, outcome, branch_outcome};

use handle::Handle;
use kit::Refusal;
use store::Counts;

// C gets it, so 01's number stands in it.
#[repr(C)]
#[derive(Clone, Copy)]
pub struct Branch {
    pub number: u64,
    pub groups: usize,
}

// How many groups there are. Room is tested before anything is written, so that a refusal changes nothing.
fn give(
    nodes: &[u64],
    text: &[u8],
    links: &[u64],
    c: Counts,
    v: u64,
    members: &mut [u64],
    ends: &mut [u64],
) -> Result<usize, Refusal>
    ensures { outcome (answered result) members.new ends.new ≡ branch_outcome nodes.now text.now links.now c v members.old ends.old }
{
    formed::graph_number(nodes, text, links, c)?;
    let branch = Handle { packed: v };
    if !store::live_node(nodes, c.nodes, branch.id()) {
        return Err(Refusal::Group);
    }
    if members.len() < sides::count_right(nodes, links, c, branch) {
        return Err(Refusal::Room);
    }
    let count = groups::count_groups(nodes, text, links, c, branch);
    if ends.len() < count {
        return Err(Refusal::Room);
    }
    groups::write_groups(nodes, text, links, c, branch, members, ends);
    Ok(count)
}

pub fn enumerate_branch(
    nodes: &[u64],
    text: &[u8],
    links: &[u64],
    c: Counts,
    v: u64,
    members: &mut [u64],
    ends: &mut [u64],
) -> Branch
    ensures { outcome result members.new ends.new ≡ branch_outcome nodes.now text.now links.now c v members.old ends.old }
{
    match give(nodes, text, links, c, v, members, ends) {
        Ok(groups) => Branch { number: 0, groups },
        Err(why) => Branch {
            number: why.number(),
            groups: 0,
        },
    }
}
