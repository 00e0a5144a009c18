// C's face of collapse.
ghost use Rattle.std.specs.Prelude.{◌≡◌};
ghost use Rattle.collapsing.specs.Outcome.{outcome, lent};
ghost use Rattle.folding.specs.Collapse.{collapse_outcome};

use collapsing::Collapsed;
use events::Used;
use store::Counts;

#[unsafe(no_mangle)]
pub extern "C" fn gfaffix_collapse(
    nodes: &mut [u64],
    text: &[u8],
    links: &mut [u64],
    c: Counts,
    rules: &mut [u64],
    steps: &mut [u64],
    u: Used,
    members: &[u64],
    p: u64,
) -> Collapsed
    ensures { outcome result (lent nodes.new links.new rules.new steps.new) ≡ collapse_outcome (lent nodes.old links.old rules.old steps.old) text.now c u members.now p }
{
    gfaffix::collapse::collapse(nodes, text, links, c, rules, steps, u, members, p)
}
