// The shared prefix of a group of oriented nodes. A member is a packed oriented node.
// No link is read, so the contracts name none.
#![tactic(auto)]

ghost use Rattle.std.specs.Prelude.{◌+◌, ◌*◌, ◌≤◌, ◌<◌, ◌≡◌, [], ◌∷◌, ◌++◌, eqb, length, take, drop, get_or};
ghost use Rattle.kit.specs.Loops.{any};
ghost use Rattle.handle.specs.Handle.{id_of};
ghost use Rattle.store.specs.Graph.{handle, nodes_of, graph_of};
ghost use Rattle.store.specs.Views.{spell};
ghost use Rattle.affix.specs.Prefix.{shared, members_live, members_once, group_prefix, handles_of};
ghost use Rattle.affix.specs.Reading.{Readable, reading_of, read, agree};

use handle::Handle;
use store::{Counts, Node};

pub fn members_live(nodes: &[u64], count: usize, members: &[u64]) -> bool
    requires { 4 * count ≤ length nodes.now }
    ensures { result ≡ members_live (nodes_of count nodes.now) (handles_of members.now) }
{
    members
        .iter()
        .map(|m| Handle { packed: *m })
        .all(|h| store::live_node(nodes, count, h.id()))
}

// Whether the node stands among the members from place `start` on, either way round.
fn member_again(members: &[u64], start: usize, id: u64) -> bool
    ensures { result ≡ any (λ v. eqb id (id_of v)) (drop start (handles_of members.now)) }
{
    // By index: `skip` would walk to `start` from the first member.
    for i in start..members.len() {
        let h = Handle { packed: members[i] };
        if id == h.id() {
            return true;
        }
    }
    false
}

pub fn members_once(members: &[u64]) -> bool
    ensures { result ≡ members_once (handles_of members.now) }
{
    for i in 0..members.len() {
        let h = Handle { packed: members[i] };
        if member_again(members, i + 1, h.id()) {
            return false;
        }
    }
    true
}

// Where an oriented node's letters stand, and which way they are read.
#[derive(Clone, Copy)]
pub struct Reading {
    pub start: usize,
    pub len: usize,
    pub direction: u64,
}

// A node that is not stored has no letters.
pub fn look_up(nodes: &[u64], count: usize, member: u64) -> Reading
    requires { 4 * count ≤ length nodes.now }
    ensures { result ≡ reading_of (nodes_of count nodes.now) (handle member) }
{
    let h = Handle { packed: member };
    let direction = h.direction();
    let Some(i) = store::find_node(nodes, count, h.id()) else {
        return Reading {
            start: 0,
            len: 0,
            direction,
        };
    };
    let r = Node::at(nodes, i);
    Reading {
        start: r.start as usize,
        len: r.len as usize,
        direction,
    }
}

pub fn letter(text: &[u8], r: Reading, i: usize) -> u8
    requires { (r.start + r.len ≤ length text.now) × (i < r.len) }
    ensures { result ≡ get_or (read text.now r) i 0 }
{
    store::read_letter(text, r.start, r.len, r.direction, i)
}

// How many letters stand before the first that is none of A, C, G, T.
fn base_run(text: &[u8], r: Reading) -> usize
    requires { r.start + r.len ≤ length text.now }
    ensures { result ≡ length (shared (read text.now r) []) }
{
    let len = r.len;
    for n in 0..len {
        if !letters::is_base(letter(text, r, n)) {
            return n;
        }
    }
    len
}

// How long the first `bound` letters of r agree with those of s.
fn same_run(text: &[u8], r: Reading, s: Reading, bound: usize) -> usize
    requires { (r.start + r.len ≤ length text.now) × (s.start + s.len ≤ length text.now) × (bound ≤ r.len) }
    ensures { result ≡ agree (take bound (read text.now r)) (read text.now s) }
{
    let len = s.len;
    for i in 0..bound {
        if len <= i {
            return i;
        }
        if !letters::same_letter(letter(text, r, i), letter(text, s, i)) {
            return i;
        }
    }
    bound
}

// The bases of the first member, cut to what each other member has the same of, the last one first.
pub fn prefix_len(nodes: &[u64], text: &[u8], c: Counts, members: &[u64]) -> usize
    requires { Readable nodes.now text.now c × (1 ≤ length members.now) }
    ensures { result ≡ length (group_prefix (graph_of nodes.now text.now [] c) (handles_of members.now)) }
{
    let count = c.nodes;
    let first = look_up(nodes, count, members[0]);
    let mut n = base_run(text, first);
    for i in (1..members.len()).rev() {
        let other = look_up(nodes, count, members[i]);
        n = same_run(text, first, other, n);
    }
    n
}

// Puts the first n letters of the member, as oriented, at the front of `out`.
pub fn write_prefix(nodes: &[u64], text: &[u8], c: Counts, member: u64, n: usize, out: &mut [u8])
    requires readable { Readable nodes.now text.now c }
    requires n_in_bounds { (n ≤ length (spell (graph_of nodes.now text.now [] c) (handle member))) × (n ≤ length out.old) }
    ensures { out.new ≡ take n (spell (graph_of nodes.now text.now [] c) (handle member)) ++ drop n out.old }
{
    let count = c.nodes;
    let r = look_up(nodes, count, member);
    for i in 0..n {
        out[i] = letter(text, r, i);
    }
}
