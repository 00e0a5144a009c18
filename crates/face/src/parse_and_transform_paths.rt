// C's face of parse_and_transform_paths.
ghost use Rattle.std.specs.Prelude.{◌≡◌};
ghost use Rattle.writing.specs.Outcome.{outcome};
ghost use Rattle.texts.specs.ParseAndTransformPaths.{paths_outcome};

use events::Used;
use store::Counts;
use writing::Written;

#[unsafe(no_mangle)]
pub extern "C" fn gfaffix_parse_and_transform_paths(
    text: &[u8],
    nodes: &[u64],
    letters: &[u8],
    links: &[u64],
    c: Counts,
    rules: &[u64],
    steps: &[u64],
    u: Used,
    out: &mut [u8],
) -> Written
    ensures { outcome result out.new ≡ paths_outcome text.now nodes.now letters.now links.now c rules.now steps.now u out.old }
{
    gfaffix::parse_and_transform_paths::parse_and_transform_paths(
        text, nodes, letters, links, c, rules, steps, u, out,
    )
}
