// What stands for a step, as text.
ghost use Rattle.std.specs.Prelude.{◌+◌, ◌*◌, ◌≤◌, ◌≡◌, true, [], length};
ghost use Rattle.store.specs.Graph.{graph_of};
ghost use Rattle.events.specs.Events.{rule, steps_of, list_of};
ghost use Rattle.events.specs.WellFormed.{table_formed};
ghost use Rattle.rewriting.specs.Rewriting.{nodes_on, transform_node};
ghost use Rattle.rewriting.specs.Measure.{towards};
ghost use Rattle.drawing.specs.Capped.{Open};
ghost use Rattle.drawing.specs.Drawn.{Drawn};

use crate::step::{Pen, add_step};
use events::{Rule, Used};
use handle::Handle;
use store::Counts;

// A rule's walk, `count` steps from `first` on, gone along in a direction.
fn add_image(
    steps: &[u64],
    total: usize,
    first: usize,
    count: usize,
    direction: u64,
    out: &mut [u8],
    stop: usize,
    start: Pen,
) -> Pen
    requires total_in_bounds { (2 * total ≤ length steps.now) × (first + count ≤ total) }
    requires fact { Open stop out.old start.place }
    ensures { Drawn stop out.old start (towards direction (nodes_on (steps_of total steps.now) (rule 0 0 first count))) out.new result }
{
    let mut pen = start;
    for j in 0..count {
        let step = rewriting::image_step(steps, total, first, count, direction, j);
        pen = add_step(out, stop, pen, Handle { packed: step });
    }
    pen
}

pub fn add_node(
    nodes: &[u64],
    c: Counts,
    rules: &[u64],
    steps: &[u64],
    u: Used,
    h: Handle,
    out: &mut [u8],
    stop: usize,
    pen: Pen,
) -> Pen
    requires nodes_in_bounds { (4 * c.nodes ≤ length nodes.now) × (table_formed rules.now steps.now u ≡ true) }
    requires fact { Open stop out.old pen.place }
    ensures { Drawn stop out.old pen (transform_node (graph_of nodes.now [] [] c) (list_of rules.now steps.now u) h) out.new result }
{
    let id = h.id();
    let len = store::node_len(nodes, c.nodes, id);
    let Some(i) = events::find_rule(rules, u.rules, id, len) else {
        return add_step(out, stop, pen, h);
    };
    let r = Rule::at(rules, i);
    let first = r.first as usize;
    let count = r.steps as usize;
    add_image(steps, u.steps, first, count, h.direction(), out, stop, pen)
}
