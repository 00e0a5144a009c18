// The nodes of a collapse, in their place.
ghost use Rattle.std.specs.Prelude.{ℕ, ◌+◌, ◌-◌, ◌*◌, ◌^◌, ◌≤◌, ◌<◌, ◌≡◌, true, cond, ◌++◌, map, eqb, length, drop};
ghost use Rattle.kit.specs.Layout.{encode};
ghost use Rattle.kit.specs.Loops.{all, distinct, count};
ghost use Rattle.handle.specs.Handle.{max_id, id_of};
ghost use Rattle.store.specs.Graph.{handle, node_layout, nodes_of};
ghost use Rattle.store.specs.Views.{node_named, stored, largest};
ghost use Rattle.formed.specs.WellFormed.{ids_once};
ghost use Rattle.merging.specs.Merging.{is_forward, mark_node};
ghost use Rattle.merging.specs.Plan.{long_by, prefix_by, alone_nodes, later_nodes, merged_nodes};

use handle::Handle;
use store::Node;

fn mark_node(nodes: &mut [u64], count: usize, id: u64)
    requires { (4 * count ≤ length nodes.old) × (ids_once (nodes_of count nodes.old) ≡ true) }
    ensures { nodes.new ≡ encode node_layout (map (mark_node id) (nodes_of count nodes.old)) ++ drop (4 * count) nodes.old }
{
    let Some(i) = store::find_node(nodes, count, id) else {
        return;
    };
    // One number of the record: all of it would be read and written for that.
    nodes[4 * i + 3] = 1;
}

// A reversed member is split forward at length minus p.
fn cut_at(m: Handle, len: u64, p: u64) -> u64
    requires { p ≤ len }
    ensures { result ≡ cond (is_forward m) p (len - p) }
{
    if m.direction() == Handle::FORWARD {
        return p;
    }
    len - p
}

// The member's first p letters, as oriented, stand alone. Says how many nodes there are then.
fn alone_nodes(nodes: &mut [u64], count: usize, m: Handle, p: u64, fresh: u64) -> usize
    requires count_in_bounds { (4 * count ≤ length nodes.old) × (4 * length (alone_nodes p (nodes_of count nodes.old) m) ≤ length nodes.old) }
    requires nodes_value { (ids_once (nodes_of count nodes.old) ≡ true) × (fresh ≡ largest (nodes_of count nodes.old) + 1) }
    requires nodes_bound { (node_named (id_of m) (nodes_of count nodes.old)).start + (node_named (id_of m) (nodes_of count nodes.old)).len < 2 ^ 64 }
    ensures value { result ≡ length (alone_nodes p (nodes_of count nodes.old) m) }
    ensures nodes_after { nodes.new ≡ encode node_layout (alone_nodes p (nodes_of count nodes.old) m) ++ drop (4 * result) nodes.old }
{
    let id = m.id();
    let Some(i) = store::find_node(nodes, count, id) else {
        return count;
    };
    let len = Node::at(nodes, i).len;
    if len <= p {
        return count;
    }
    let k = cut_at(m, len, p);
    split::split_nodes(nodes, count, i, id, fresh, k);
    count + 1
}

// On which node the member's first p letters stand then: a long reversed member's are the fresh one's.
fn prefix_id(nodes: &[u64], count: usize, m: Handle, p: u64, fresh: u64) -> u64
    requires { 4 * count ≤ length nodes.now }
    ensures { result ≡ id_of (prefix_by p (nodes_of count nodes.now) fresh m) }
{
    let id = m.id();
    if m.direction() == Handle::FORWARD {
        return id;
    }
    if store::node_len(nodes, count, id) <= p {
        return id;
    }
    fresh
}

// A later member: its prefix stands alone and is marked. Says how many nodes there are then.
fn later_nodes(nodes: &mut [u64], count: usize, m: Handle, p: u64) -> usize
    requires count_in_bounds { (4 * count ≤ length nodes.old) × (4 * length (alone_nodes p (nodes_of count nodes.old) m) ≤ length nodes.old) }
    requires nodes_value { (ids_once (nodes_of count nodes.old) ≡ true) × (stored (id_of m) (nodes_of count nodes.old) ≡ true) × (largest (nodes_of count nodes.old) ≤ max_id) }
    requires nodes_bound { (node_named (id_of m) (nodes_of count nodes.old)).start + (node_named (id_of m) (nodes_of count nodes.old)).len < 2 ^ 64 }
    ensures value { result ≡ length (later_nodes p (nodes_of count nodes.old) m) }
    ensures nodes_after { nodes.new ≡ encode node_layout (later_nodes p (nodes_of count nodes.old) m) ++ drop (4 * result) nodes.old }
{
    let fresh = store::largest_id(nodes, count) + 1;
    let id = prefix_id(nodes, count, m, p, fresh);
    let n = alone_nodes(nodes, count, m, p, fresh);
    mark_node(nodes, n, id);
    n
}

// Members in order; the first prefix is not marked. Says how many nodes there are then.
pub fn merge_nodes(nodes: &mut [u64], node_count: usize, members: &[u64], p: u64) -> usize
    requires in_bounds { (1 ≤ length members.now) × (ids_once (nodes_of node_count nodes.old) ≡ true) }
    requires members_value { (all (λ m. stored (id_of m) (nodes_of node_count nodes.old)) (map handle members.now) ≡ true) × (distinct (λ u v. eqb (id_of u) (id_of v)) (map handle members.now) ≡ true) }
    requires by_index { (id : ℕ) → (node_named id (nodes_of node_count nodes.old)).start + (node_named id (nodes_of node_count nodes.old)).len < 2 ^ 64 }
    requires members_bound { largest (nodes_of node_count nodes.old) + count (long_by p (nodes_of node_count nodes.old)) (map handle members.now) ≤ max_id }
    requires members_in_bounds { 4 * (node_count + count (long_by p (nodes_of node_count nodes.old)) (map handle members.now)) ≤ length nodes.old }
    ensures value { result ≡ length (merged_nodes p (nodes_of node_count nodes.old) (map handle members.now)) }
    ensures nodes_after { nodes.new ≡ encode node_layout (merged_nodes p (nodes_of node_count nodes.old) (map handle members.now)) ++ drop (4 * result) nodes.old }
{
    let first = Handle { packed: members[0] };
    let fresh = store::largest_id(nodes, node_count) + 1;
    let mut n = alone_nodes(nodes, node_count, first, p, fresh);
    for i in 1..members.len() {
        let m = Handle { packed: members[i] };
        n = later_nodes(nodes, n, m, p);
    }
    n
}
