// The live part of a graph as text.
ghost use Rattle.std.specs.Prelude.{◌≡◌};
ghost use Rattle.writing.specs.Outcome.{outcome};
ghost use Rattle.texts.specs.PrintActiveSubgraph.{subgraph_outcome};

use store::Counts;
use writing::Written;

#[tactic(auto, unfolding(crate::specs::PrintActiveSubgraph::subgraph_outcome))]
pub fn print_active_subgraph(
    nodes: &[u64],
    text: &[u8],
    links: &[u64],
    c: Counts,
    out: &mut [u8],
) -> Written
    ensures { outcome result out.new ≡ subgraph_outcome nodes.now text.now links.now c out.old }
{
    match formed::graph_number(nodes, text, links, c) {
        Ok(()) => writing::graph::print_graph(nodes, text, links, c, out),
        Err(why) => Written {
            number: why.number(),
            len: 0,
        },
    }
}
