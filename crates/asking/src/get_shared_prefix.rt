// The letters that every member of a group begins with.
ghost use Rattle.std.specs.Prelude.{◌≡◌};
ghost use Rattle.asking.specs.GetSharedPrefix.{outcome, answered, shared_prefix_outcome};

use kit::Refusal;
use store::Counts;

// C gets it, so 01's number stands in it.
#[repr(C)]
#[derive(Clone, Copy)]
pub struct SharedPrefix {
    pub number: u64,
    pub length: usize,
}

// How many letters there are. Room is tested before anything is written, so that a refusal changes nothing.
#[tactic(auto, unfolding(crate::specs::GetSharedPrefix::shared_prefix_outcome))]
fn give(
    nodes: &[u64],
    text: &[u8],
    links: &[u64],
    c: Counts,
    members: &[u64],
    out: &mut [u8],
) -> Result<usize, Refusal>
    ensures { outcome (answered result) out.new ≡ shared_prefix_outcome nodes.now text.now links.now c members.now out.old }
{
    formed::graph_number(nodes, text, links, c)?;
    if members.len() == 0 {
        return Err(Refusal::Group);
    }
    if !affix::members_live(nodes, c.nodes, members) {
        return Err(Refusal::Group);
    }
    if !affix::members_once(members) {
        return Err(Refusal::Group);
    }
    let length = affix::prefix_len(nodes, text, c, members);
    if out.len() < length {
        return Err(Refusal::Room);
    }
    affix::write_prefix(nodes, text, c, members[0], length, out);
    Ok(length)
}

// A member is a packed oriented node.
pub fn get_shared_prefix(
    nodes: &[u64],
    text: &[u8],
    links: &[u64],
    c: Counts,
    members: &[u64],
    out: &mut [u8],
) -> SharedPrefix
    ensures { outcome result out.new ≡ shared_prefix_outcome nodes.now text.now links.now c members.now out.old }
{
    match give(nodes, text, links, c, members, out) {
        Ok(length) => SharedPrefix { number: 0, length },
        Err(why) => SharedPrefix {
            number: why.number(),
            length: 0,
        },
    }
}
