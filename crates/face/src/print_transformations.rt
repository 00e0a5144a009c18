// C's face of print_transformations.
ghost use Rattle.std.specs.Prelude.{◌≡◌};
ghost use Rattle.writing.specs.Outcome.{outcome};
ghost use Rattle.texts.specs.PrintTransformations.{table_outcome};

use events::Used;
use store::Counts;
use writing::Written;

#[unsafe(no_mangle)]
pub extern "C" fn gfaffix_print_transformations(
    nodes: &[u64],
    text: &[u8],
    links: &[u64],
    c: Counts,
    rules: &[u64],
    steps: &[u64],
    u: Used,
    out: &mut [u8],
) -> Written
    ensures { outcome result out.new ≡ table_outcome nodes.now text.now links.now c rules.now steps.now u out.old }
{
    gfaffix::print_transformations::print_transformations(
        nodes, text, links, c, rules, steps, u, out,
    )
}
