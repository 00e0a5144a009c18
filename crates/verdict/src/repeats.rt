// Whether a new node stands twice in the walks of protected nodes: 28. No memory is lent for what was met, so each step
// is looked for in the walks before it.
ghost use Rattle.std.specs.Prelude.{◌+◌, ◌*◌, ◌≤◌, ◌≡◌, true, not, [], map, eqb, length};
ghost use Rattle.kit.specs.Loops.{any, lines};
ghost use Rattle.handle.specs.Handle.{id_of};
ghost use Rattle.store.specs.Graph.{graph_of};
ghost use Rattle.store.specs.Views.{len_of};
ghost use Rattle.events.specs.Events.{rule, rules_of, steps_of, list_of};
ghost use Rattle.events.specs.WellFormed.{table_formed};
ghost use Rattle.rewriting.specs.Rewriting.{rule_under, nodes_on};
ghost use Rattle.verdict.specs.Conditions.{protected_ids, no_repeat, protected_fault};
ghost use Rattle.verdict.specs.Search.{walk_at};

use events::{Rule, Step, Used};
use handle::Handle;
use scanning::Verdict;
use store::Counts;

// Where a rule's steps stand.
#[derive(Clone, Copy)]
pub struct Walk {
    pub first: usize,
    pub count: usize,
}

// The walk of the rule under an old node's id and length; without a step where there is none.
fn walk_of(oldnodes: &[u64], c: Counts, rules: &[u64], used: usize, id: u64) -> Walk
    requires { (4 * c.nodes ≤ length oldnodes.now) × (4 * used ≤ length rules.now) }
    ensures { result ≡ walk_at (rule_under id (len_of (graph_of oldnodes.now [] [] c) id) (rules_of used rules.now)) }
{
    let len = store::node_len(oldnodes, c.nodes, id);
    let Some(i) = events::find_rule(rules, used, id, len) else {
        return Walk { first: 0, count: 0 };
    };
    let r = Rule::at(rules, i);
    Walk {
        first: r.first as usize,
        count: r.steps as usize,
    }
}

// Whether a node stands among `count` steps from `first` on.
fn in_walk(steps: &[u64], total: usize, first: usize, count: usize, id: u64) -> bool
    requires { (2 * total ≤ length steps.now) × (first + count ≤ total) }
    ensures { result ≡ any (eqb id) (map id_of (nodes_on (steps_of total steps.now) (rule 0 0 first count))) }
{
    for j in 0..count {
        if id == Step::at(steps, first + j).node.id() {
            return true;
        }
    }
    false
}

// Whether a node stands in the walk of one of these protected nodes.
fn in_walks(
    oldnodes: &[u64],
    c: Counts,
    rules: &[u64],
    steps: &[u64],
    u: Used,
    before: &[u64],
    id: u64,
) -> bool
    requires { (4 * c.nodes ≤ length oldnodes.now) × (table_formed rules.now steps.now u ≡ true) }
    ensures { result ≡ any (eqb id) (lines (protected_ids (graph_of oldnodes.now [] [] c) (list_of rules.now steps.now u)) before.now) }
{
    for k in 0..before.len() {
        let w = walk_of(oldnodes, c, rules, u.rules, before[k]);
        if in_walk(steps, u.steps, w.first, w.count, id) {
            return true;
        }
    }
    false
}

// Whether a step of this node's walk stands earlier in it, or in the walk of one of those before it.
fn repeats(
    oldnodes: &[u64],
    c: Counts,
    rules: &[u64],
    steps: &[u64],
    u: Used,
    before: &[u64],
    id: u64,
) -> bool
    requires { (4 * c.nodes ≤ length oldnodes.now) × (table_formed rules.now steps.now u ≡ true) }
    ensures { result ≡ not (no_repeat (lines (protected_ids (graph_of oldnodes.now [] [] c) (list_of rules.now steps.now u)) before.now) (protected_ids (graph_of oldnodes.now [] [] c) (list_of rules.now steps.now u) id)) }
{
    let w = walk_of(oldnodes, c, rules, u.rules, id);
    let first = w.first;
    let count = w.count;
    for j in 0..count {
        let node = Step::at(steps, first + j).node.id();
        if in_walks(oldnodes, c, rules, steps, u, before, node) {
            return true;
        }
        if in_walk(steps, u.steps, first, j, node) {
            return true;
        }
    }
    false
}

pub fn first_repeat(
    oldnodes: &[u64],
    c: Counts,
    rules: &[u64],
    steps: &[u64],
    u: Used,
    protected: &[u64],
) -> Verdict
    requires { (4 * c.nodes ≤ length oldnodes.now) × (table_formed rules.now steps.now u ≡ true) }
    ensures { result ≡ protected_fault (graph_of oldnodes.now [] [] c) (list_of rules.now steps.now u) 0 [] protected.now }
{
    for i in 0..protected.len() {
        if repeats(oldnodes, c, rules, steps, u, &protected[..i], protected[i]) {
            return Verdict {
                number: 28,
                first: i as u64,
                second: 0,
            };
        }
    }
    Verdict {
        number: 0,
        first: 0,
        second: 0,
    }
}
