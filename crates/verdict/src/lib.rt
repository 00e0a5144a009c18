// The checker: the eight conditions.
#![tactic(auto)]

ghost use Rattle.std.specs.Prelude.{◌≡◌, true};
ghost use Rattle.store.specs.Graph.{graph_of};
ghost use Rattle.formed.specs.WellFormed.{well_formed};
ghost use Rattle.events.specs.Events.{list_of};
ghost use Rattle.events.specs.WellFormed.{table_formed};
ghost use Rattle.verdict.specs.Conditions.{conditions_fault};

use events::Used;
use scanning::Verdict;
use store::Counts;

pub mod repeats;

// 1 to 7. The order of the tests is the order of the numbers, so the first fault is the answer.
pub fn conditions(
    old_nodes: &[u64],
    old_text: &[u8],
    old_links: &[u64],
    c: Counts,
    nodes: &[u64],
    text: &[u8],
    links: &[u64],
    d: Counts,
    table: &[u64],
    steps: &[u64],
    u: Used,
    protected: &[u64],
) -> Verdict
    requires { (well_formed old_nodes.now old_text.now old_links.now c ≡ true) × (well_formed nodes.now text.now links.now d ≡ true) × (table_formed table.now steps.now u ≡ true) }
    ensures { result ≡ conditions_fault (graph_of old_nodes.now old_text.now old_links.now c) (graph_of nodes.now text.now links.now d) (list_of table.now steps.now u) protected.now }
{
    let scanned = scanning::scan_rules(
        old_nodes, old_text, c, nodes, text, links, d, table, steps, u,
    );
    if scanned.number != 0 {
        return scanned;
    }
    let lost = keeping::nodes_fault(old_nodes, old_text, c, nodes, text, d, table, u);
    if lost.number != 0 {
        return lost;
    }
    let cut = keeping::links_fault(old_nodes, old_links, c, nodes, links, d, table, steps, u);
    if cut.number != 0 {
        return cut;
    }
    repeats::first_repeat(old_nodes, c, table, steps, u, protected)
}
