// The checker, where it is asked for.
ghost use Rattle.std.specs.Prelude.{◌≡◌};
ghost use Rattle.checking.specs.CheckTransform.{lent};
ghost use Rattle.desk.specs.Desk.{judged};

use events::Used;
use scanning::Verdict;
use store::Counts;

pub fn judge(
    check: bool,
    old_nodes: &[u64],
    letters: &[u8],
    old_links: &[u64],
    c: Counts,
    nodes: &[u64],
    links: &[u64],
    d: Counts,
    rules: &[u64],
    steps: &[u64],
    u: Used,
    protected: &[u64],
) -> Verdict
    ensures { result ≡ judged check (lent old_nodes.now letters.now old_links.now c) (lent nodes.now letters.now links.now d) rules.now steps.now u protected.now }
{
    if !check {
        return Verdict {
            number: 0,
            first: 0,
            second: 0,
        };
    }
    gfaffix::check_transform::check_transform(
        old_nodes, letters, old_links, c, nodes, letters, links, d, rules, steps, u, protected,
    )
}
