// C's face of print_active_subgraph.
ghost use Rattle.std.specs.Prelude.{◌≡◌};
ghost use Rattle.writing.specs.Outcome.{outcome};
ghost use Rattle.texts.specs.PrintActiveSubgraph.{subgraph_outcome};

use store::Counts;
use writing::Written;

#[unsafe(no_mangle)]
pub extern "C" fn gfaffix_print_active_subgraph(
    nodes: &[u64],
    text: &[u8],
    links: &[u64],
    c: Counts,
    out: &mut [u8],
) -> Written
    ensures { outcome result out.new ≡ subgraph_outcome nodes.now text.now links.now c out.old }
{
    gfaffix::print_active_subgraph::print_active_subgraph(nodes, text, links, c, out)
}
