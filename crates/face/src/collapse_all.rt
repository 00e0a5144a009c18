// C's face of collapse_all.
ghost use Rattle.std.specs.Prelude.{◌≡◌};
ghost use Rattle.collapsing.specs.Outcome.{lent};
ghost use Rattle.driver.specs.Outcome.{outcome};
ghost use Rattle.folding.specs.CollapseAll.{collapse_all_outcome};

use driver::Driven;
use events::Used;
use store::Counts;

#[unsafe(no_mangle)]
pub extern "C" fn gfaffix_collapse_all(
    nodes: &mut [u64],
    text: &[u8],
    links: &mut [u64],
    c: Counts,
    rules: &mut [u64],
    steps: &mut [u64],
    u: Used,
    protected: &[u64],
) -> Driven
    ensures { outcome result (lent nodes.new links.new rules.new steps.new) ≡ collapse_all_outcome (lent nodes.old links.old rules.old steps.old) text.now c u protected.now }
{
    gfaffix::collapse_all::collapse_all(nodes, text, links, c, rules, steps, u, protected)
}
