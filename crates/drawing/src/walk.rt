// New paths and walks. Both loops end as soon as the place is at `stop`: what is left only adds to it.
ghost use Rattle.std.specs.Prelude.{◌*◌, ◌≤◌, ◌≡◌, true, [], length};
ghost use Rattle.store.specs.Graph.{graph_of};
ghost use Rattle.events.specs.Events.{list_of};
ghost use Rattle.events.specs.WellFormed.{table_formed};
ghost use Rattle.rewriting.specs.Rewriting.{transform_walk};
ghost use Rattle.text.specs.Steps.{path_handles, walk_handles};
ghost use Rattle.writing.specs.Marks.{path_text, walk_text};
ghost use Rattle.drawing.specs.Capped.{Open, Capped};

use crate::image::add_node;
use crate::step::Pen;
use events::Used;
use store::Counts;
use text::pieces::piece_end;
use text::steps::{path_handle, walk_handle, walk_step_end};

pub fn add_path(
    nodes: &[u64],
    c: Counts,
    rules: &[u64],
    steps: &[u64],
    u: Used,
    path: &[u8],
    out: &mut [u8],
    stop: usize,
    at: usize,
) -> usize
    requires nodes_in_bounds { (4 * c.nodes ≤ length nodes.now) × (table_formed rules.now steps.now u ≡ true) }
    requires fact { Open stop out.old at }
    ensures { Capped stop out.old at (path_text (transform_walk (graph_of nodes.now [] [] c) (list_of rules.now steps.now u) (path_handles path.now))) out.new result }
{
    let mut pen = Pen {
        place: at,
        mark: Pen::FIRST,
    };
    let mut from: usize = 0;
    loop {
        let end = piece_end(path, from, b',');
        let h = path_handle(&path[from..end]);
        pen = add_node(nodes, c, rules, steps, u, h, out, stop, pen);
        if end == path.len() {
            return pen.place;
        }
        if stop <= pen.place {
            return stop;
        }
        from = end + 1;
    }
}

pub fn add_walk(
    nodes: &[u64],
    c: Counts,
    rules: &[u64],
    steps: &[u64],
    u: Used,
    walk: &[u8],
    out: &mut [u8],
    stop: usize,
    at: usize,
) -> usize
    requires nodes_in_bounds { (4 * c.nodes ≤ length nodes.now) × (table_formed rules.now steps.now u ≡ true) }
    requires fact { Open stop out.old at }
    ensures { Capped stop out.old at (walk_text (transform_walk (graph_of nodes.now [] [] c) (list_of rules.now steps.now u) (walk_handles walk.now))) out.new result }
{
    let mut pen = Pen {
        place: at,
        mark: Pen::WALK,
    };
    let mut from: usize = 0;
    // The place moves by what a step takes, so it is no count.
    while from < walk.len() {
        let end = walk_step_end(walk, from);
        let h = walk_handle(&walk[from..end]);
        pen = add_node(nodes, c, rules, steps, u, h, out, stop, pen);
        if stop <= pen.place {
            return stop;
        }
        from = end;
    }
    pen.place
}
