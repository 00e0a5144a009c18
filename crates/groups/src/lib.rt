// Groups of an oriented node: its live right neighbours by first letter and set of live left neighbours.
// Who calls these has tested that the store is well formed.
#![tactic(auto)]

ghost use Rattle.std.specs.Prelude.{IfSome, ◌+◌, ◌-◌, ◌*◌, ◌≤◌, ◌<◌, ◌≡◌, true, cond, [], eqb, length, take};
ghost use Rattle.kit.specs.Loops.{all, keep};
ghost use Rattle.kit.specs.Put.{Put};
ghost use Rattle.store.specs.Graph.{nodes_of, graph_of};
ghost use Rattle.store.specs.Views.{letter_of};
ghost use Rattle.formed.specs.WellFormed.{good_node, well_formed};
ghost use Rattle.sides.specs.Sides.{right_of, next_above, packed_of};
ghost use Rattle.groups.specs.Groups.{same_key, is_reverse, arranged, groups_of, members_of, ends_from, numbers, over};
ghost use Rattle.groups.specs.Search.{of_key, heads_of, first_met};

use handle::Handle;
use store::{Counts, Node};

// The first letter that an oriented node reads; 0 where no such node is stored, as the clause's `letter_of` says.
fn first_letter(nodes: &[u64], text: &[u8], c: Counts, u: Handle) -> u8
    requires nodes_in_bounds { (4 * c.nodes ≤ length nodes.now) × (c.letters ≤ length text.now) }
    requires nodes_value { all (good_node (take c.letters text.now)) (nodes_of c.nodes nodes.now) ≡ true }
    ensures { result ≡ letter_of (graph_of nodes.now text.now [] c) u 0 }
{
    let Some(i) = store::find_node(nodes, c.nodes, u.id()) else {
        return 0;
    };
    let r = Node::at(nodes, i);
    store::read_letter(text, r.start as usize, r.len as usize, u.direction(), 0)
}

// Whether two oriented nodes belong to one group.
pub fn same_key(nodes: &[u64], text: &[u8], links: &[u64], c: Counts, u: Handle, w: Handle) -> bool
    requires { well_formed nodes.now text.now links.now c ≡ true }
    ensures { result ≡ same_key (graph_of nodes.now text.now links.now c) u w }
{
    let a = first_letter(nodes, text, c, u);
    let b = first_letter(nodes, text, c, w);
    if !letters::same_letter(a, b) {
        return false;
    }
    sides::same_left(nodes, links, c, u, w)
}

// The next live right neighbour of v above a packed number that has u's key.
pub fn next_of_key(
    nodes: &[u64],
    text: &[u8],
    links: &[u64],
    c: Counts,
    v: Handle,
    u: Handle,
    above: u64,
) -> Option<Handle>
    requires { well_formed nodes.now text.now links.now c ≡ true }
    ensures value { packed_of result ≡ next_above above (of_key (graph_of nodes.now text.now links.now c) v u) }
    ensures some { IfSome result (λ h. 0 < h.packed) }
{
    let mut at = above;
    while let Some(w) = sides::next_right(nodes, links, c, v, at) {
        if same_key(nodes, text, links, c, u, w) {
            return Some(w);
        }
        at = w.packed;
    }
    None
}

// Whether u, a neighbour of v, is the first met of its key.
fn is_head(nodes: &[u64], text: &[u8], links: &[u64], c: Counts, v: Handle, u: Handle) -> bool
    requires { well_formed nodes.now text.now links.now c ≡ true }
    ensures { result ≡ first_met (graph_of nodes.now text.now links.now c) (right_of (graph_of nodes.now text.now links.now c) v) u }
{
    let Some(first) = next_of_key(nodes, text, links, c, v, u, 0) else {
        // `first_met` has 0 for none.
        return u.packed == 0;
    };
    first == u
}

// The next of them above a packed number.
pub fn next_head(
    nodes: &[u64],
    text: &[u8],
    links: &[u64],
    c: Counts,
    v: Handle,
    above: u64,
) -> Option<Handle>
    requires { well_formed nodes.now text.now links.now c ≡ true }
    ensures value { packed_of result ≡ next_above above (heads_of (graph_of nodes.now text.now links.now c) v) }
    ensures some { IfSome result (λ h. 0 < h.packed) }
{
    let mut at = above;
    while let Some(u) = sides::next_right(nodes, links, c, v, at) {
        if is_head(nodes, text, links, c, v, u) {
            return Some(u);
        }
        at = u.packed;
    }
    None
}

// How many groups v has: one for each head.
pub fn count_groups(nodes: &[u64], text: &[u8], links: &[u64], c: Counts, v: Handle) -> usize
    requires { well_formed nodes.now text.now links.now c ≡ true }
    ensures { result ≡ length (groups_of (graph_of nodes.now text.now links.now c) v) }
{
    let mut n: usize = 0;
    let mut above: u64 = 0;
    while let Some(u) = next_head(nodes, text, links, c, v, above) {
        n += 1;
        above = u.packed;
    }
    n
}

// How many members u's group has.
pub fn count_of_key(
    nodes: &[u64],
    text: &[u8],
    links: &[u64],
    c: Counts,
    v: Handle,
    u: Handle,
) -> usize
    requires { well_formed nodes.now text.now links.now c ≡ true }
    ensures { result ≡ length (of_key (graph_of nodes.now text.now links.now c) v u) }
{
    let mut n: usize = 0;
    let mut above: u64 = 0;
    while let Some(w) = next_of_key(nodes, text, links, c, v, u, above) {
        n += 1;
        above = w.packed;
    }
    n
}

// How many members of u's group are reversed.
fn count_reversed(
    nodes: &[u64],
    text: &[u8],
    links: &[u64],
    c: Counts,
    v: Handle,
    u: Handle,
) -> usize
    requires { well_formed nodes.now text.now links.now c ≡ true }
    ensures { result ≡ length (keep is_reverse (of_key (graph_of nodes.now text.now links.now c) v u)) }
{
    let mut n: usize = 0;
    let mut above: u64 = 0;
    while let Some(w) = next_of_key(nodes, text, links, c, v, u, above) {
        n += w.direction() as usize;
        above = w.packed;
    }
    n
}

// The place of the member that comes next, where the places from `low` to `high` are taken: a reversed one goes below them.
fn place(direction: u64, low: usize, high: usize) -> usize
    requires { direction ≤ low }
    ensures { result ≡ cond (eqb direction 1) (low - 1) high }
{
    if direction == Handle::REVERSE {
        return low - 1;
    }
    high
}

// Writes u's group from `base` on, and says where it ends.
pub fn write_group(
    nodes: &[u64],
    text: &[u8],
    links: &[u64],
    c: Counts,
    v: Handle,
    u: Handle,
    base: usize,
    members: &mut [u64],
) -> usize
    requires c_value { well_formed nodes.now text.now links.now c ≡ true }
    requires u_in_bounds { base + length (of_key (graph_of nodes.now text.now links.now c) v u) ≤ length members.old }
    ensures { Put members.old base (numbers (arranged (of_key (graph_of nodes.now text.now links.now c) v u))) members.new result }
{
    let mut low = base + count_reversed(nodes, text, links, c, v, u);
    let mut high = low;
    let mut above: u64 = 0;
    while let Some(w) = next_of_key(nodes, text, links, c, v, u, above) {
        let direction = w.direction();
        let at = place(direction, low, high);
        members[at] = w.packed;
        low -= direction as usize;
        high += 1 - direction as usize;
        above = w.packed;
    }
    high
}

// Writes the groups one after another, and where each of them ends. Who calls this has counted both.
pub fn write_groups(
    nodes: &[u64],
    text: &[u8],
    links: &[u64],
    c: Counts,
    v: Handle,
    members: &mut [u64],
    ends: &mut [u64],
)
    requires c_value { well_formed nodes.now text.now links.now c ≡ true }
    requires v_in_bounds { (length (right_of (graph_of nodes.now text.now links.now c) v) ≤ length members.old) × (length (groups_of (graph_of nodes.now text.now links.now c) v) ≤ length ends.old) }
    ensures members_after { members.new ≡ over (numbers (members_of (groups_of (graph_of nodes.now text.now links.now c) v))) members.old }
    ensures ends_after { ends.new ≡ over (ends_from 0 (groups_of (graph_of nodes.now text.now links.now c) v)) ends.old }
{
    let mut n: usize = 0;
    let mut at: usize = 0;
    let mut above: u64 = 0;
    while let Some(u) = next_head(nodes, text, links, c, v, above) {
        at = write_group(nodes, text, links, c, v, u, at, members);
        ends[n] = at as u64;
        n += 1;
        above = u.packed;
    }
}
