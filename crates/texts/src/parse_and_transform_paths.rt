// The P and W lines of a text, with their walks rewritten by a table.
ghost use Rattle.std.specs.Prelude.{◌≡◌};
ghost use Rattle.writing.specs.Outcome.{outcome};
ghost use Rattle.texts.specs.ParseAndTransformPaths.{paths_outcome};

use events::Used;
use store::Counts;
use writing::Written;

#[tactic(auto, unfolding(crate::specs::ParseAndTransformPaths::paths_outcome))]
pub fn parse_and_transform_paths(
    text: &[u8],
    nodes: &[u64],
    letters: &[u8],
    links: &[u64],
    c: Counts,
    rules: &[u64],
    steps: &[u64],
    u: Used,
    out: &mut [u8],
) -> Written
    ensures { outcome result out.new ≡ paths_outcome text.now nodes.now letters.now links.now c rules.now steps.now u out.old }
{
    match rewriting::old_number(nodes, letters, links, c, rules, steps, u) {
        Ok(()) => paths::print_paths(text, nodes, c, rules, steps, u, out),
        Err(why) => Written {
            number: why.number(),
            len: 0,
        },
    }
}
