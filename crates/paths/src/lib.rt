// P and W lines out, with their walks rewritten. Who calls this has tested the old graph and the table.
#![tactic(auto)]

pub mod line;
pub mod number;

ghost use Rattle.std.specs.Prelude.{◌*◌, ◌≤◌, ◌≡◌, true, cond, not, [], eqb, length};
ghost use Rattle.store.specs.Graph.{nodes_of, graph_of};
ghost use Rattle.events.specs.Events.{list_of};
ghost use Rattle.events.specs.WellFormed.{table_formed};
ghost use Rattle.writing.specs.Outcome.{outcome, refused, writing};
ghost use Rattle.paths.specs.PathText.{paths_text, paths_number};

use events::Used;
use kit::Refusal;
use store::Counts;
use writing::Written;

// Measured in an empty room first, so that a refusal changes no byte. No letter and no link is read, so the contract names none.
pub fn print_paths(
    text: &[u8],
    nodes: &[u64],
    c: Counts,
    rules: &[u64],
    steps: &[u64],
    u: Used,
    out: &mut [u8],
) -> Written
    requires { (4 * c.nodes ≤ length nodes.now) × (table_formed rules.now steps.now u ≡ true) }
    ensures { outcome result out.new ≡ cond (not (eqb (paths_number (nodes_of c.nodes nodes.now) text.now) 0)) (refused (paths_number (nodes_of c.nodes nodes.now) text.now) out.old) (writing (paths_text (graph_of nodes.now [] [] c) (list_of rules.now steps.now u) text.now) out.old) }
{
    if let Err(refusal) = number::check_paths(nodes, c.nodes, text) {
        return Written {
            number: refusal.number(),
            len: 0,
        };
    }
    let stop = out.len() + 1;
    let len = line::add_lines(nodes, c, rules, steps, u, text, &mut out[..0], stop);
    if out.len() < len {
        return Written {
            number: Refusal::Room.number(),
            len: 0,
        };
    }
    line::add_lines(nodes, c, rules, steps, u, text, out, stop);
    Written { number: 0, len }
}
