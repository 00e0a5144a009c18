// A walk of the old graph, rewritten by a table.
ghost use Rattle.std.specs.Prelude.{◌≡◌};
ghost use Rattle.walking.specs.TransformWalk.{outcome, answered, transform_outcome};

use events::Used;
use kit::Refusal;
use store::Counts;

// C gets it, so 01's number stands in it.
#[repr(C)]
#[derive(Clone, Copy)]
pub struct Rewritten {
    pub number: u64,
    pub length: usize,
}

// How many steps the new walk has. Room is tested before anything is written, so that a refusal changes nothing.
#[tactic(auto, unfolding(crate::specs::TransformWalk::transform_outcome))]
fn give(
    nodes: &[u64],
    text: &[u8],
    links: &[u64],
    c: Counts,
    rules: &[u64],
    steps: &[u64],
    u: Used,
    walk: &[u64],
    out: &mut [u64],
) -> Result<usize, Refusal>
    ensures { outcome (answered result) out.new ≡ transform_outcome nodes.now text.now links.now c rules.now steps.now u walk.now out.old }
{
    rewriting::old_number(nodes, text, links, c, rules, steps, u)?;
    if !spelling::all_stored(nodes, c.nodes, walk) {
        return Err(Refusal::Absent);
    }
    let length = rewriting::rewritten_len(nodes, c.nodes, rules, u.rules, walk, out.len()).ok_or(
        Refusal::Room,
    )?;
    rewriting::write_walk(nodes, c, rules, steps, u, walk, out);
    Ok(length)
}

// A step is a packed oriented node.
pub fn transform_walk(
    nodes: &[u64],
    text: &[u8],
    links: &[u64],
    c: Counts,
    rules: &[u64],
    steps: &[u64],
    u: Used,
    walk: &[u64],
    out: &mut [u64],
) -> Rewritten
    ensures { outcome result out.new ≡ transform_outcome nodes.now text.now links.now c rules.now steps.now u walk.now out.old }
{
    match give(nodes, text, links, c, rules, steps, u, walk, out) {
        Ok(length) => Rewritten { number: 0, length },
        Err(why) => Rewritten {
            number: why.number(),
            length: 0,
        },
    }
}
