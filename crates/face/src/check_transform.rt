// C's face of check_transform.
ghost use Rattle.std.specs.Prelude.{◌≡◌};
ghost use Rattle.checking.specs.CheckTransform.{lent, check_outcome};

use events::Used;
use scanning::Verdict;
use store::Counts;

#[unsafe(no_mangle)]
pub extern "C" fn gfaffix_check_transform(
    old_nodes: &[u64],
    old_text: &[u8],
    old_links: &[u64],
    c: Counts,
    nodes: &[u64],
    text: &[u8],
    links: &[u64],
    d: Counts,
    rules: &[u64],
    steps: &[u64],
    u: Used,
    protected: &[u64],
) -> Verdict
    ensures { result ≡ check_outcome (lent old_nodes.now old_text.now old_links.now c) (lent nodes.now text.now links.now d) rules.now steps.now u protected.now }
{
    gfaffix::check_transform::check_transform(
        old_nodes, old_text, old_links, c, nodes, text, links, d, rules, steps, u, protected,
    )
}
