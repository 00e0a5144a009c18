// C's face of transform_walk.
ghost use Rattle.std.specs.Prelude.{◌≡◌};
ghost use Rattle.walking.specs.TransformWalk.{outcome, transform_outcome};

use events::Used;
use gfaffix::transform_walk::Rewritten;
use store::Counts;

#[unsafe(no_mangle)]
pub extern "C" fn gfaffix_transform_walk(
    nodes: &[u64],
    text: &[u8],
    links: &[u64],
    c: Counts,
    rules: &[u64],
    steps: &[u64],
    u: Used,
    walk: &[u64],
    out: &mut [u64],
) -> Rewritten
    ensures { outcome result out.new ≡ transform_outcome nodes.now text.now links.now c rules.now steps.now u walk.now out.old }
{
    gfaffix::transform_walk::transform_walk(nodes, text, links, c, rules, steps, u, walk, out)
}
