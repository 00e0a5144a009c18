// A collapse of a group at length p.
ghost use Rattle.std.specs.Prelude.{◌≡◌};
ghost use Rattle.collapsing.specs.Outcome.{outcome, lent};
ghost use Rattle.folding.specs.Collapse.{collapse_outcome};

use collapsing::Collapsed;
use events::Used;
use store::Counts;

// Everything is decided before the first store, so that a refusal changes nothing.
#[tactic(auto, unfolding(crate::specs::Collapse::collapse_outcome))]
pub fn collapse(
    nodes: &mut [u64],
    text: &[u8],
    links: &mut [u64],
    c: Counts,
    rules: &mut [u64],
    steps: &mut [u64],
    u: Used,
    members: &[u64],
    p: u64,
) -> Collapsed
    ensures { outcome result (lent nodes.new links.new rules.new steps.new) ≡ collapse_outcome (lent nodes.old links.old rules.old steps.old) text.now c u members.now p }
{
    if let Err(why) = collapsing::number::state_number(nodes, text, links, c, rules, steps, u) {
        return collapsing::refuse(why.number(), c, u);
    }
    collapsing::collapse_group(nodes, text, links, c, rules, steps, u, members, p)
}
