// P and W lines out.
ghost use Rattle.std.specs.Prelude.{◌*◌, ◌≤◌, ◌≡◌, true, [], length};
ghost use Rattle.store.specs.Graph.{graph_of};
ghost use Rattle.events.specs.Events.{list_of};
ghost use Rattle.events.specs.WellFormed.{table_formed};
ghost use Rattle.text.specs.Pieces.{is_line};
ghost use Rattle.paths.specs.PathText.{new_path, new_walk, new_line, paths_text};
ghost use Rattle.drawing.specs.Capped.{Open, Capped};

use drawing::cap::{add_bytes, add_fields};
use drawing::walk::{add_path, add_walk};
use events::Used;
use lines::next_line;
use store::Counts;
use text::pieces::{field, is_line};

fn add_path_line(
    nodes: &[u64],
    c: Counts,
    rules: &[u64],
    steps: &[u64],
    u: Used,
    line: &[u8],
    out: &mut [u8],
    stop: usize,
    at: usize,
) -> usize
    requires nodes_in_bounds { (4 * c.nodes ≤ length nodes.now) × (table_formed rules.now steps.now u ≡ true) }
    requires fact { Open stop out.old at × (is_line 80 line.now ≡ true) }
    ensures { Capped stop out.old at (new_path (graph_of nodes.now [] [] c) (list_of rules.now steps.now u) line.now) out.new result }
{
    let p = add_fields(line, 2, out, stop, at);
    let q = add_path(nodes, c, rules, steps, u, field(line, 2), out, stop, p);
    add_bytes(out, stop, q, b"\t*\n")
}

fn add_walk_line(
    nodes: &[u64],
    c: Counts,
    rules: &[u64],
    steps: &[u64],
    u: Used,
    line: &[u8],
    out: &mut [u8],
    stop: usize,
    at: usize,
) -> usize
    requires nodes_in_bounds { (4 * c.nodes ≤ length nodes.now) × (table_formed rules.now steps.now u ≡ true) }
    requires fact { Open stop out.old at × (is_line 87 line.now ≡ true) }
    ensures { Capped stop out.old at (new_walk (graph_of nodes.now [] [] c) (list_of rules.now steps.now u) line.now) out.new result }
{
    let p = add_fields(line, 6, out, stop, at);
    let q = add_walk(nodes, c, rules, steps, u, field(line, 6), out, stop, p);
    add_bytes(out, stop, q, b"\n")
}

fn add_line(
    nodes: &[u64],
    c: Counts,
    rules: &[u64],
    steps: &[u64],
    u: Used,
    line: &[u8],
    out: &mut [u8],
    stop: usize,
    at: usize,
) -> usize
    requires nodes_in_bounds { (4 * c.nodes ≤ length nodes.now) × (table_formed rules.now steps.now u ≡ true) }
    requires fact { Open stop out.old at }
    ensures { Capped stop out.old at (new_line (graph_of nodes.now [] [] c) (list_of rules.now steps.now u) line.now) out.new result }
{
    if is_line(line, b'P') {
        return add_path_line(nodes, c, rules, steps, u, line, out, stop, at);
    }
    if is_line(line, b'W') {
        return add_walk_line(nodes, c, rules, steps, u, line, out, stop, at);
    }
    at
}

pub fn add_lines(
    nodes: &[u64],
    c: Counts,
    rules: &[u64],
    steps: &[u64],
    u: Used,
    text: &[u8],
    out: &mut [u8],
    stop: usize,
) -> usize
    requires nodes_in_bounds { (4 * c.nodes ≤ length nodes.now) × (table_formed rules.now steps.now u ≡ true) }
    requires fact { Open stop out.old 0 }
    ensures { Capped stop out.old 0 (paths_text (graph_of nodes.now [] [] c) (list_of rules.now steps.now u) text.now) out.new result }
{
    let mut place: usize = 0;
    let mut from: usize = 0;
    loop {
        let end = next_line(text, from);
        place = add_line(
            nodes,
            c,
            rules,
            steps,
            u,
            &text[from..end],
            out,
            stop,
            place,
        );
        if end == text.len() {
            return place;
        }
        if stop <= place {
            return stop;
        }
        from = end + 1;
    }
}
