// The table as text.
ghost use Rattle.std.specs.Prelude.{◌≡◌};
ghost use Rattle.writing.specs.Outcome.{outcome};
ghost use Rattle.texts.specs.PrintTransformations.{table_outcome};

use events::Used;
use store::Counts;
use writing::Written;

#[tactic(auto, unfolding(crate::specs::PrintTransformations::table_outcome))]
pub fn print_transformations(
    nodes: &[u64],
    text: &[u8],
    links: &[u64],
    c: Counts,
    rules: &[u64],
    steps: &[u64],
    u: Used,
    out: &mut [u8],
) -> Written
    ensures { outcome result out.new ≡ table_outcome nodes.now text.now links.now c rules.now steps.now u out.old }
{
    match rewriting::old_number(nodes, text, links, c, rules, steps, u) {
        Ok(()) => tabling::print_table(nodes, c, rules, steps, u, out),
        Err(why) => Written {
            number: why.number(),
            len: 0,
        },
    }
}
