// Rewriting a walk by a table. A step is a packed oriented node.
// Who calls the writers has tested the table, and has measured.
#![tactic(auto)]

ghost use Rattle.std.specs.Prelude.{◌+◌, ◌*◌, ◌≤◌, ◌<◌, ◌≡◌, true, [], length, get_or};
ghost use Rattle.kit.specs.Put.{Put};
ghost use Rattle.kit.specs.Refusal.{number_of};
ghost use Rattle.store.specs.Graph.{handle, nodes_of, graph_of};
ghost use Rattle.affix.specs.Prefix.{handles_of};
ghost use Rattle.groups.specs.Groups.{numbers, over};
ghost use Rattle.events.specs.Events.{rule, rules_of, steps_of, list_of};
ghost use Rattle.events.specs.WellFormed.{table_formed};
ghost use Rattle.spelling.specs.Measure.{within};
ghost use Rattle.rewriting.specs.Rewriting.{nodes_on, transform_node, transform_walk, old_number};
ghost use Rattle.rewriting.specs.Measure.{towards, new_len, new_walk_len};

use events::{Rule, Step, Used};
use handle::Handle;
use kit::Refusal;
use store::Counts;

// 13 of the old graph or the table, then 5 of either.
pub fn old_number(
    nodes: &[u64],
    text: &[u8],
    links: &[u64],
    c: Counts,
    rules: &[u64],
    steps: &[u64],
    u: Used,
) -> Result<(), Refusal>
    ensures { number_of result ≡ old_number nodes.now text.now links.now c rules.now steps.now u }
{
    if !formed::old_formed(nodes, text, links, c) {
        return Err(Refusal::Malformed);
    }
    if !events::table_formed(rules, steps, u) {
        return Err(Refusal::Malformed);
    }
    if !formed::ids_once(nodes, c.nodes) {
        return Err(Refusal::Twice);
    }
    if !events::keys_once(rules, u.rules) {
        return Err(Refusal::Twice);
    }
    Ok(())
}

// How many steps stand for one step.
fn image_len(nodes: &[u64], count: usize, rules: &[u64], used: usize, step: u64) -> u64
    requires { (4 * count ≤ length nodes.now) × (4 * used ≤ length rules.now) }
    ensures { result ≡ new_len (nodes_of count nodes.now) (rules_of used rules.now) (handle step) }
{
    let h = Handle { packed: step };
    let id = h.id();
    let len = store::node_len(nodes, count, id);
    let Some(i) = events::find_rule(rules, used, id, len) else {
        return 1;
    };
    Rule::at(rules, i).steps
}

// How many steps the new walk has, if that is at most `room`.
pub fn rewritten_len(
    nodes: &[u64],
    count: usize,
    rules: &[u64],
    used: usize,
    walk: &[u64],
    room: usize,
) -> Option<usize>
    requires { (4 * count ≤ length nodes.now) × (4 * used ≤ length rules.now) }
    ensures { result ≡ within room (new_walk_len (nodes_of count nodes.now) (rules_of used rules.now) (handles_of walk.now)) }
{
    let mut n: usize = 0;
    for i in 0..walk.len() {
        let len = image_len(nodes, count, rules, used, walk[i]) as usize;
        if room - n < len {
            return None;
        }
        n += len;
    }
    Some(n)
}

// Step j of a rule's walk, `count` steps from `first` on, gone along in a direction.
pub fn image_step(
    steps: &[u64],
    total: usize,
    first: usize,
    count: usize,
    direction: u64,
    j: usize,
) -> u64
    requires { (2 * total ≤ length steps.now) × (first + count ≤ total) × (j < count) }
    ensures { result ≡ get_or (numbers (towards direction (nodes_on (steps_of total steps.now) (rule 0 0 first count)))) j 0 }
{
    if direction == Handle::FORWARD {
        return Step::at(steps, first + j).node.packed;
    }
    Step::at(steps, first + (count - 1 - j)).node.flip().packed
}

// Puts that walk from `at` on; the place after it.
fn put_image(
    steps: &[u64],
    total: usize,
    first: usize,
    count: usize,
    direction: u64,
    at: usize,
    out: &mut [u64],
) -> usize
    requires { (2 * total ≤ length steps.now) × (first + count ≤ total) × (at + count ≤ length out.old) }
    ensures { Put out.old at (numbers (towards direction (nodes_on (steps_of total steps.now) (rule 0 0 first count)))) out.new result }
{
    for j in 0..count {
        out[at + j] = image_step(steps, total, first, count, direction, j);
    }
    at + count
}

// Puts what stands for one step from `at` on; the place after it.
pub fn transform_node(
    nodes: &[u64],
    c: Counts,
    rules: &[u64],
    steps: &[u64],
    u: Used,
    step: u64,
    at: usize,
    out: &mut [u64],
) -> usize
    requires nodes_in_bounds { (4 * c.nodes ≤ length nodes.now) × (table_formed rules.now steps.now u ≡ true) }
    requires step_in_bounds { at + length (transform_node (graph_of nodes.now [] [] c) (list_of rules.now steps.now u) (handle step)) ≤ length out.old }
    ensures { Put out.old at (numbers (transform_node (graph_of nodes.now [] [] c) (list_of rules.now steps.now u) (handle step))) out.new result }
{
    let h = Handle { packed: step };
    let id = h.id();
    let len = store::node_len(nodes, c.nodes, id);
    let Some(i) = events::find_rule(rules, u.rules, id, len) else {
        out[at] = step;
        return at + 1;
    };
    let r = Rule::at(rules, i);
    let first = r.first as usize;
    let count = r.steps as usize;
    put_image(steps, u.steps, first, count, h.direction(), at, out)
}

// Puts the new walk at the front of `out`.
pub fn write_walk(
    nodes: &[u64],
    c: Counts,
    rules: &[u64],
    steps: &[u64],
    u: Used,
    walk: &[u64],
    out: &mut [u64],
)
    requires nodes_in_bounds { (4 * c.nodes ≤ length nodes.now) × (table_formed rules.now steps.now u ≡ true) }
    requires walk_in_bounds { length (transform_walk (graph_of nodes.now [] [] c) (list_of rules.now steps.now u) (handles_of walk.now)) ≤ length out.old }
    ensures { out.new ≡ over (numbers (transform_walk (graph_of nodes.now [] [] c) (list_of rules.now steps.now u) (handles_of walk.now))) out.old }
{
    let mut at: usize = 0;
    for i in 0..walk.len() {
        at = transform_node(nodes, c, rules, steps, u, walk[i], at, out);
    }
}
