// The table as text. Who calls these has tested the old graph and the table. Neither letters nor links are read, so the contracts
// name none.
#![tactic(auto)]

ghost use Rattle.std.specs.Prelude.{◌+◌, ◌*◌, ◌^◌, ◌≤◌, ◌<◌, ◌≡◌, true, [], ◌++◌, length};
ghost use Rattle.kit.specs.Decimal.{decimal};
ghost use Rattle.kit.specs.Loops.{all, lines};
ghost use Rattle.handle.specs.Handle.{is_id, dir_of};
ghost use Rattle.store.specs.Graph.{nodes_of, graph_of};
ghost use Rattle.store.specs.Views.{unmarked_node};
ghost use Rattle.events.specs.Events.{rule, steps_of, list_of};
ghost use Rattle.events.specs.WellFormed.{table_formed};
ghost use Rattle.rewriting.specs.Rewriting.{nodes_on};
ghost use Rattle.text.specs.Bytes.{bytes};
ghost use Rattle.writing.specs.Filled.{Filled};
ghost use Rattle.writing.specs.Marks.{walk_text};
ghost use Rattle.writing.specs.Outcome.{outcome, writing};
ghost use Rattle.writing.specs.TableText.{just_itself, table_line, old_segments, table_text};

use events::{Rule, Step, Used};
use handle::Handle;
use store::Counts;
use writing::{Written, along, marks, put};

// A rule's walk, `count` steps from `first` on.
fn fill_walk(
    steps: &[u64],
    total: usize,
    first: usize,
    count: usize,
    at: usize,
    out: &mut [u8],
) -> usize
    requires total_in_bounds { (2 * total ≤ length steps.now) × (first + count ≤ total) }
    requires count_bound { at + length (walk_text (nodes_on (steps_of total steps.now) (rule 0 0 first count))) < 2 ^ 64 }
    ensures { Filled out.old at (walk_text (nodes_on (steps_of total steps.now) (rule 0 0 first count))) out.new result }
{
    let mut place = at;
    for j in 0..count {
        place = marks::fill_step(out, place, Step::at(steps, first + j).node);
    }
    place
}

// Whether that walk is just the node itself, forward.
fn just_itself(steps: &[u64], total: usize, first: usize, count: usize, h: Handle) -> bool
    requires { (2 * total ≤ length steps.now) × (first + count ≤ total) }
    ensures { result ≡ just_itself h (nodes_on (steps_of total steps.now) (rule 0 0 first count)) }
{
    count == 1 && h == Step::at(steps, first).node
}

// The row of a node of `len` letters that has a rule.
fn fill_row(
    steps: &[u64],
    total: usize,
    first: usize,
    count: usize,
    id: u64,
    len: u64,
    at: usize,
    out: &mut [u8],
) -> usize
    requires total_in_bounds { (2 * total ≤ length steps.now) × (first + count ≤ total) }
    requires len_bound { at + length (decimal id) + length (walk_text (nodes_on (steps_of total steps.now) (rule 0 0 first count))) + length (decimal len) + 3 < 2 ^ 64 }
    ensures { Filled out.old at (decimal id ++ bytes "\t" ++ walk_text (nodes_on (steps_of total steps.now) (rule 0 0 first count)) ++ bytes "\t" ++ decimal len ++ bytes "\n") out.new result }
{
    let p = put::fill_number(out, at, id);
    let q = put::fill_bytes(out, p, b"\t");
    let s = fill_walk(steps, total, first, count, q, out);
    let t = put::fill_bytes(out, s, b"\t");
    let v = put::fill_number(out, t, len);
    put::fill_bytes(out, v, b"\n")
}

// What an old node, handed forward, has in the table; nothing where its walk is just itself forward.
fn fill_old(
    nodes: &[u64],
    c: Counts,
    rules: &[u64],
    steps: &[u64],
    u: Used,
    h: Handle,
    at: usize,
    out: &mut [u8],
) -> usize
    requires nodes_in_bounds { (4 * c.nodes ≤ length nodes.now) × (table_formed rules.now steps.now u ≡ true) × (dir_of h ≡ 0) }
    requires h_bound { at + length (table_line (graph_of nodes.now [] [] c) (list_of rules.now steps.now u) h) < 2 ^ 64 }
    ensures { Filled out.old at (table_line (graph_of nodes.now [] [] c) (list_of rules.now steps.now u) h) out.new result }
{
    let id = h.id();
    let len = store::node_len(nodes, c.nodes, id);
    let Some(i) = events::find_rule(rules, u.rules, id, len) else {
        return at;
    };
    let r = Rule::at(rules, i);
    let first = r.first as usize;
    let count = r.steps as usize;
    if just_itself(steps, u.steps, first, count, h) {
        return at;
    }
    fill_row(steps, u.steps, first, count, id, len, at, out)
}

// No old node is marked, so the search for live nodes finds them all.
fn fill_rows(
    nodes: &[u64],
    c: Counts,
    rules: &[u64],
    steps: &[u64],
    u: Used,
    at: usize,
    out: &mut [u8],
) -> usize
    requires nodes_in_bounds { (4 * c.nodes ≤ length nodes.now) × (table_formed rules.now steps.now u ≡ true) }
    requires nodes_value { (all (λ r. is_id r.id) (nodes_of c.nodes nodes.now) ≡ true) × (all unmarked_node (nodes_of c.nodes nodes.now) ≡ true) }
    requires nodes_bound { at + length (lines (table_line (graph_of nodes.now [] [] c) (list_of rules.now steps.now u)) (old_segments (nodes_of c.nodes nodes.now))) < 2 ^ 64 }
    ensures { Filled out.old at (lines (table_line (graph_of nodes.now [] [] c) (list_of rules.now steps.now u)) (old_segments (nodes_of c.nodes nodes.now))) out.new result }
{
    let mut place = at;
    let mut above: u64 = 0;
    while let Some(h) = along::next_segment(nodes, c.nodes, above) {
        place = fill_old(nodes, c, rules, steps, u, h, place, out);
        above = h.packed;
    }
    place
}

fn fill_table(
    nodes: &[u64],
    c: Counts,
    rules: &[u64],
    steps: &[u64],
    u: Used,
    out: &mut [u8],
) -> usize
    requires nodes_in_bounds { (4 * c.nodes ≤ length nodes.now) × (table_formed rules.now steps.now u ≡ true) }
    requires nodes_value { (all (λ r. is_id r.id) (nodes_of c.nodes nodes.now) ≡ true) × (all unmarked_node (nodes_of c.nodes nodes.now) ≡ true) }
    requires u_len_bound { length (table_text (graph_of nodes.now [] [] c) (list_of rules.now steps.now u)) < 2 ^ 64 }
    ensures { Filled out.old 0 (table_text (graph_of nodes.now [] [] c) (list_of rules.now steps.now u)) out.new result }
{
    let at = put::fill_bytes(out, 0, b"original_node\ttransformed_walk\tbp_length\n");
    fill_rows(nodes, c, rules, steps, u, at, out)
}

// Measured in an empty room first, so that a refusal changes no byte.
pub fn print_table(
    nodes: &[u64],
    c: Counts,
    rules: &[u64],
    steps: &[u64],
    u: Used,
    out: &mut [u8],
) -> Written
    requires nodes_in_bounds { (4 * c.nodes ≤ length nodes.now) × (table_formed rules.now steps.now u ≡ true) }
    requires nodes_value { (all (λ r. is_id r.id) (nodes_of c.nodes nodes.now) ≡ true) × (all unmarked_node (nodes_of c.nodes nodes.now) ≡ true) }
    requires u_len_bound { length (table_text (graph_of nodes.now [] [] c) (list_of rules.now steps.now u)) < 2 ^ 64 }
    ensures { outcome result out.new ≡ writing (table_text (graph_of nodes.now [] [] c) (list_of rules.now steps.now u)) out.old }
{
    let len = fill_table(nodes, c, rules, steps, u, &mut out[..0]);
    if out.len() < len {
        return Written { number: 7, len: 0 };
    }
    fill_table(nodes, c, rules, steps, u, out);
    Written { number: 0, len }
}
