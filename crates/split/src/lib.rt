// Split of a node, in the arrays that hold the graph. No operation by itself: who calls it has tested what it requires.
#![tactic(auto)]

ghost use Rattle.std.specs.Prelude.{◌≡◌, true, cond, [], ◌∷◌, ◌++◌, map, ◌+◌, ◌*◌, ◌^◌, ◌≤◌, ◌<◌, length, drop};
ghost use Rattle.kit.specs.Layout.{encode};
ghost use Rattle.handle.specs.Handle.{max_id, same_handle};
ghost use Rattle.handle.specs.Edge.{edge, written};
ghost use Rattle.store.specs.Graph.{node, link, handle, node_layout, link_layout, nodes_of, links_of};
ghost use Rattle.store.specs.Views.{find_node, node_named, largest};
ghost use Rattle.formed.specs.WellFormed.{ids_once};
ghost use Rattle.split.specs.Split.{cut, move_ends, move_link, split_nodes, split_links};

use handle::{Edge, Handle};
use store::{Link, Node};

// One end of a link: f where it is v.
fn moved(h: Handle, v: Handle, f: Handle) -> Handle
    ensures { result ≡ cond (same_handle h v) f h }
{
    if h == v {
        return f;
    }
    h
}

// The ends of a link, with v's right moved to f's right, as they are written.
fn move_ends(from: u64, to: u64, v: Handle, f: Handle) -> Edge
    ensures { result ≡ written (move_ends v f (edge (handle from) (handle to))) }
{
    let flip_v = v.flip();
    let flip_f = f.flip();
    let a = moved(Handle { packed: from }, v, f);
    let b = moved(Handle { packed: to }, flip_v, flip_f);
    Edge::written(a, b)
}

// Each link on v's right stands on f's right instead, in its slot.
fn move_links(links: &mut [u64], count: usize, v: Handle, f: Handle)
    requires { 3 * count ≤ length links.old }
    ensures { links.new ≡ encode link_layout (map (move_link v f) (links_of count links.old)) ++ drop (3 * count) links.old }
{
    for i in 0..count {
        // Two numbers of the record: all of it would be read and written for them.
        let e = move_ends(links[3 * i], links[3 * i + 1], v, f);
        let a = e.from;
        let b = e.to;
        links[3 * i] = a.packed;
        links[3 * i + 1] = b.packed;
    }
}

// One link more, at the end, unmarked.
pub fn push_link(links: &mut [u64], count: usize, from: Handle, to: Handle)
    requires { 3 * (count + 1) ≤ length links.old }
    ensures { links.new ≡ encode link_layout (links_of count links.old ++ (link (edge from to) 0 ∷ [])) ++ drop (3 * (count + 1)) links.old }
{
    let l = Link { from, to, mark: 0 };
    l.put(links, count);
}

// Marked links move as well, and keep their marks; v to fresh is new and unmarked.
pub fn split_links(links: &mut [u64], count: usize, id: u64, fresh: u64)
    requires count_in_bounds { 3 * (count + 1) ≤ length links.old }
    requires id_le_max_id { (id ≤ max_id) × (fresh ≤ max_id) }
    ensures { links.new ≡ encode link_layout (split_links id fresh (links_of count links.old)) ++ drop (3 * (count + 1)) links.old }
{
    let v = Handle::forward(id);
    let f = Handle::forward(fresh);
    move_links(links, count, v, f);
    push_link(links, count, v, f);
}

// The node `id`, which stands in the slot `at` and nowhere else, keeps its first k letters.
fn cut_node(nodes: &mut [u64], count: usize, at: usize, id: u64, k: u64)
    requires count_in_bounds { 4 * count ≤ length nodes.old }
    requires at_lt_count { (at < count) × (find_node id (nodes_of count nodes.old) ≡ Some at) × (ids_once (nodes_of count nodes.old) ≡ true) }
    ensures { nodes.new ≡ encode node_layout (map (cut id k) (nodes_of count nodes.old)) ++ drop (4 * count) nodes.old }
{
    // One number of the record: all of it would be read and written for that.
    nodes[4 * at + 2] = k;
}

// One node more, at the end.
pub fn push_node(nodes: &mut [u64], count: usize, id: u64, start: u64, len: u64, mark: u64)
    requires { 4 * (count + 1) ≤ length nodes.old }
    ensures { nodes.new ≡ encode node_layout (nodes_of count nodes.old ++ (node id start len mark ∷ [])) ++ drop (4 * (count + 1)) nodes.old }
{
    let r = Node {
        id,
        start,
        len,
        mark,
    };
    r.put(nodes, count);
}

// The node `id` keeps its first k letters, and the rest of it stands under the id `fresh`, at the end.
pub fn split_nodes(nodes: &mut [u64], count: usize, at: usize, id: u64, fresh: u64, k: u64)
    requires count_in_bounds { 4 * (count + 1) ≤ length nodes.old }
    requires at_lt_count { (at < count) × (find_node id (nodes_of count nodes.old) ≡ Some at) × (ids_once (nodes_of count nodes.old) ≡ true) }
    requires fresh_value { fresh ≡ largest (nodes_of count nodes.old) + 1 }
    requires k_bound { (k ≤ (node_named id (nodes_of count nodes.old)).len) × ((node_named id (nodes_of count nodes.old)).start + k < 2 ^ 64) }
    ensures { nodes.new ≡ encode node_layout (split_nodes id k (nodes_of count nodes.old)) ++ drop (4 * (count + 1)) nodes.old }
{
    let r = Node::at(nodes, at);
    cut_node(nodes, count, at, id, k);
    push_node(nodes, count, fresh, r.start + k, r.len - k, r.mark);
}

// The node `id`, in the slot `at`, is split at k: one node and one link more, at the end.
pub fn split(
    nodes: &mut [u64],
    links: &mut [u64],
    node_count: usize,
    link_count: usize,
    at: usize,
    id: u64,
    fresh: u64,
    k: u64,
)
    requires node_count_in_bounds { (4 * (node_count + 1) ≤ length nodes.old) × (3 * (link_count + 1) ≤ length links.old) }
    requires at_lt_node_count { (at < node_count) × (find_node id (nodes_of node_count nodes.old) ≡ Some at) × (ids_once (nodes_of node_count nodes.old) ≡ true) }
    requires fresh_value { (fresh ≡ largest (nodes_of node_count nodes.old) + 1) × (fresh ≤ max_id) }
    requires k_bound { (k ≤ (node_named id (nodes_of node_count nodes.old)).len) × ((node_named id (nodes_of node_count nodes.old)).start + k < 2 ^ 64) }
    ensures nodes_after { nodes.new ≡ encode node_layout (split_nodes id k (nodes_of node_count nodes.old)) ++ drop (4 * (node_count + 1)) nodes.old }
    ensures links_after { links.new ≡ encode link_layout (split_links id fresh (links_of link_count links.old)) ++ drop (3 * (link_count + 1)) links.old }
{
    split_nodes(nodes, node_count, at, id, fresh, k);
    split_links(links, link_count, id, fresh);
}
