// Whether what a line names is stored.
ghost use Rattle.std.specs.Prelude.{◌*◌, ◌≤◌, ◌≡◌, [], ◌∷◌, length};
ghost use Rattle.handle.specs.Handle.{id_of};
ghost use Rattle.store.specs.Graph.{nodes_of};
ghost use Rattle.store.specs.Views.{stored};
ghost use Rattle.spelling.specs.Spelling.{all_stored};
ghost use Rattle.text.specs.Steps.{path_handles, walk_handles};
ghost use Rattle.text.specs.Fields.{edge_of, handles_said};

use fields::edge_of;
use handle::Handle;
use text::pieces::{field, is_line, piece_end};
use text::steps::{path_handle, walk_handle, walk_step_end};

fn is_stored(nodes: &[u64], count: usize, h: Handle) -> bool
    requires { 4 * count ≤ length nodes.now }
    ensures { result ≡ stored (id_of h) (nodes_of count nodes.now) }
{
    store::find_node(nodes, count, h.id()).is_some()
}

fn path_stored(nodes: &[u64], count: usize, path: &[u8]) -> bool
    requires { 4 * count ≤ length nodes.now }
    ensures { result ≡ all_stored (nodes_of count nodes.now) (path_handles path.now) }
{
    let mut at: usize = 0;
    loop {
        let end = piece_end(path, at, b',');
        if !is_stored(nodes, count, path_handle(&path[at..end])) {
            return false;
        }
        if end == path.len() {
            return true;
        }
        at = end + 1;
    }
}

fn walk_stored(nodes: &[u64], count: usize, walk: &[u8]) -> bool
    requires { 4 * count ≤ length nodes.now }
    ensures { result ≡ all_stored (nodes_of count nodes.now) (walk_handles walk.now) }
{
    let mut at: usize = 0;
    // The place moves by what a step takes, so it is no count.
    while at < walk.len() {
        let end = walk_step_end(walk, at);
        if !is_stored(nodes, count, walk_handle(&walk[at..end])) {
            return false;
        }
        at = end;
    }
    true
}

fn ends_stored(nodes: &[u64], count: usize, line: &[u8]) -> bool
    requires { 4 * count ≤ length nodes.now }
    ensures { result ≡ all_stored (nodes_of count nodes.now) ((edge_of line.now).from ∷ (edge_of line.now).to ∷ []) }
{
    let e = edge_of(line);
    is_stored(nodes, count, e.from) && is_stored(nodes, count, e.to)
}

// 6: whether each node that the line names is stored.
#[tactic(auto, unfolding(text::specs::Fields::handles_said))]
pub fn said_stored(nodes: &[u64], count: usize, line: &[u8]) -> bool
    requires { 4 * count ≤ length nodes.now }
    ensures { result ≡ all_stored (nodes_of count nodes.now) (handles_said line.now) }
{
    if is_line(line, b'L') {
        return ends_stored(nodes, count, line);
    }
    if is_line(line, b'P') {
        return path_stored(nodes, count, field(line, 2));
    }
    if is_line(line, b'W') {
        return walk_stored(nodes, count, field(line, 6));
    }
    true
}
