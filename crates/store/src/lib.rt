// The graph in flat arrays, as C lends them: what is stored, lookups and views.
// A node is four numbers (id, start, length, mark), a link three (from, to, mark).
#![tactic(auto)]

ghost use Rattle.std.specs.Prelude.{IfSome, ◌+◌, ◌*◌, ◌^◌, ◌≤◌, ◌<◌, ◌≡◌, true, length, take, drop};
ghost use Rattle.kit.specs.Loops.{any};
ghost use Rattle.letters.specs.Sequences.{letter_at};
ghost use Rattle.handle.specs.Edge.{edge};
ghost use Rattle.std.proofs.lemmas.List.Edits.{sets};
ghost use Rattle.store.specs.Graph.{node_at, link_at, nodes_of, links_of, link, ends, pack_node, pack_link};
ghost use Rattle.store.specs.Views.{find_node, stored, node_named, live_node, largest, live_letters, find_link, live_link, joins_live};

use handle::{Edge, Handle};

// How many nodes, letters and links are in use.
#[repr(C)]
#[derive(Clone, Copy)]
pub struct Counts {
    pub nodes: usize,
    pub letters: usize,
    pub links: usize,
}

// A node's letters stand at `start`, `len` of them; mark 0: not deleted.
#[derive(Clone, Copy)]
pub struct Node {
    pub id: u64,
    pub start: u64,
    pub len: u64,
    pub mark: u64,
}

impl Node {
    pub fn at(nodes: &[u64], i: usize) -> Self
        requires { 4 * i + 4 ≤ length nodes.now }
        ensures { result ≡ node_at nodes.now i }
    {
        let k = 4 * i;
        Self {
            id: nodes[k],
            start: nodes[k + 1],
            len: nodes[k + 2],
            mark: nodes[k + 3],
        }
    }

    pub fn put(self, nodes: &mut [u64], i: usize)
        requires { 4 * i + 4 ≤ length nodes.old }
        ensures { nodes.new ≡ sets nodes.old (4 * i) (pack_node self) }
    {
        let k = 4 * i;
        nodes[k] = self.id;
        nodes[k + 1] = self.start;
        nodes[k + 2] = self.len;
        nodes[k + 3] = self.mark;
    }
}

// A link between two oriented nodes; mark 0: not deleted.
#[derive(Clone, Copy)]
pub struct Link {
    pub from: Handle,
    pub to: Handle,
    pub mark: u64,
}

impl Link {
    pub fn at(links: &[u64], i: usize) -> Self
        requires { 3 * i + 3 ≤ length links.now }
        ensures { result ≡ link_at links.now i }
    {
        let k = 3 * i;
        Self {
            from: Handle { packed: links[k] },
            to: Handle {
                packed: links[k + 1],
            },
            mark: links[k + 2],
        }
    }

    // The same with its ends alone: a search by the ends asks for the mark of what it has found, and of no other link.
    pub fn unmarked_at(links: &[u64], i: usize) -> Self
        requires { 3 * i + 3 ≤ length links.now }
        ensures { result ≡ link (ends (link_at links.now i)) 0 }
    {
        let first = 3 * i;
        Self {
            from: Handle {
                packed: links[first],
            },
            to: Handle {
                packed: links[first + 1],
            },
            mark: 0,
        }
    }

    pub fn put(self, links: &mut [u64], i: usize)
        requires { 3 * i + 3 ≤ length links.old }
        ensures { links.new ≡ sets links.old (3 * i) (pack_link self) }
    {
        let k = 3 * i;
        links[k] = self.from.packed;
        links[k + 1] = self.to.packed;
        links[k + 2] = self.mark;
    }

    pub fn ends(self) -> Edge
        ensures { result ≡ ends self }
    {
        Edge {
            from: self.from,
            to: self.to,
        }
    }
}

// The slot of the first node with this id.
pub fn find_node(nodes: &[u64], count: usize, id: u64) -> Option<usize>
    requires { 4 * count ≤ length nodes.now }
    ensures value { result ≡ find_node id (nodes_of count nodes.now) }
    ensures within { IfSome result (λ i. i < count) }
{
    for i in 0..count {
        if Node::at(nodes, i).id == id {
            return Some(i);
        }
    }
    None
}

// How many letters the node has; 0 where there is none, as the clause's `node_named` says.
pub fn node_len(nodes: &[u64], count: usize, id: u64) -> u64
    requires { 4 * count ≤ length nodes.now }
    ensures { result ≡ (node_named id (nodes_of count nodes.now)).len }
{
    let Some(i) = find_node(nodes, count, id) else {
        return 0;
    };
    Node::at(nodes, i).len
}

// Whether a node with this id is stored, from slot `start` on.
pub fn stored_from(nodes: &[u64], count: usize, start: usize, id: u64) -> bool
    requires { 4 * count ≤ length nodes.now }
    ensures { result ≡ stored id (drop start (nodes_of count nodes.now)) }
{
    for i in start..count {
        if Node::at(nodes, i).id == id {
            return true;
        }
    }
    false
}

pub fn live_node(nodes: &[u64], count: usize, id: u64) -> bool
    requires { 4 * count ≤ length nodes.now }
    ensures { result ≡ live_node id (nodes_of count nodes.now) }
{
    for i in 0..count {
        let r = Node::at(nodes, i);
        if r.id == id && r.mark == 0 {
            return true;
        }
    }
    false
}

// The largest id stored; marked nodes count.
pub fn largest_id(nodes: &[u64], count: usize) -> u64
    requires { 4 * count ≤ length nodes.now }
    ensures { result ≡ largest (nodes_of count nodes.now) }
{
    let mut best: u64 = 0;
    for i in 0..count {
        let r = Node::at(nodes, i);
        if best < r.id {
            best = r.id;
        }
    }
    best
}

pub fn live_letters(nodes: &[u64], count: usize) -> u64
    requires count_in_bounds { 4 * count ≤ length nodes.now }
    requires nodes_bound { live_letters (nodes_of count nodes.now) < 2 ^ 64 }
    ensures { result ≡ live_letters (nodes_of count nodes.now) }
{
    let mut sum: u64 = 0;
    for i in 0..count {
        let r = Node::at(nodes, i);
        if r.mark == 0 {
            sum += r.len;
        }
    }
    sum
}

// Letter i of a node's letters, `len` of them from `start` on, read in a direction.
pub fn read_letter(text: &[u8], start: usize, len: usize, direction: u64, i: usize) -> u8
    requires { (start + len ≤ length text.now) × (i < len) }
    ensures { result ≡ letter_at (take len (drop start text.now)) direction i }
{
    if direction == Handle::FORWARD {
        return text[start + i];
    }
    letters::complement(text[start + (len - 1 - i)])
}

// The slot of the first link with these ends, in whichever form they are given.
pub fn find_link(links: &[u64], count: usize, u: Handle, v: Handle) -> Option<usize>
    requires { 3 * count ≤ length links.now }
    ensures { result ≡ find_link (edge u v) (links_of count links.now) }
{
    let e = Edge { from: u, to: v };
    for i in 0..count {
        if e.same_link(Link::at(links, i).ends()) {
            return Some(i);
        }
    }
    None
}

// Whether a link is live: its own mark and its ends.
pub fn live_link(nodes: &[u64], count: usize, l: Link) -> bool
    requires { 4 * count ≤ length nodes.now }
    ensures { result ≡ live_link (nodes_of count nodes.now) l }
{
    l.mark == 0 && live_node(nodes, count, l.from.id()) && live_node(nodes, count, l.to.id())
}

// Whether a live link with these ends is stored.
pub fn live_linked(nodes: &[u64], links: &[u64], c: Counts, u: Handle, v: Handle) -> bool
    requires { (4 * c.nodes ≤ length nodes.now) × (3 * c.links ≤ length links.now) }
    ensures { result ≡ any (joins_live (nodes_of c.nodes nodes.now) (edge u v)) (links_of c.links links.now) }
{
    let e = Edge { from: u, to: v };
    for i in 0..c.links {
        if e.same_link(Link::unmarked_at(links, i).ends())
            && live_link(nodes, c.nodes, Link::at(links, i))
        {
            return true;
        }
    }
    false
}
