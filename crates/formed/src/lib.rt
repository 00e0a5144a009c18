// Whether a store is well formed: 01's 13, then 5. These take any arrays and any counts.
#![tactic(auto)]

ghost use Rattle.std.specs.Prelude.{◌+◌, ◌*◌, ◌≤◌, ◌≡◌, length, take, drop};
ghost use Rattle.kit.specs.Loops.{all, any};
ghost use Rattle.kit.specs.Refusal.{number_of};
ghost use Rattle.handle.specs.Edge.{edge, same_ends};
ghost use Rattle.store.specs.Graph.{node, link, ends, nodes_of, links_of};
ghost use Rattle.store.specs.Views.{unmarked_node};
ghost use Rattle.formed.specs.WellFormed.{room_for, good_node, good_link, links_once, ids_once, unmarked_link, well_formed, old_formed, graph_number};

use handle::{Edge, Handle};
use kit::Refusal;
use store::{Counts, Link, Node, stored_from};

// The tests are in an order in which none can overflow.
fn good_node(text: &[u8], r: Node) -> bool
    ensures { result ≡ good_node text.now r }
{
    if r.id < 1 {
        return false;
    }
    if Handle::MAX_ID < r.id {
        return false;
    }
    if 1 < r.mark {
        return false;
    }
    if r.len < 1 {
        return false;
    }
    if (text.len() as u64) < r.len {
        return false;
    }
    if text.len() as u64 - r.len < r.start {
        return false;
    }
    let first = r.start as usize;
    letters::all_letters(&text[first..first + r.len as usize])
}

fn good_nodes(nodes: &[u64], count: usize, text: &[u8]) -> bool
    requires { 4 * count ≤ length nodes.now }
    ensures { result ≡ all (good_node text.now) (nodes_of count nodes.now) }
{
    for i in 0..count {
        if !good_node(text, Node::at(nodes, i)) {
            return false;
        }
    }
    true
}

fn good_link(nodes: &[u64], count: usize, l: Link) -> bool
    requires { 4 * count ≤ length nodes.now }
    ensures { result ≡ good_link (nodes_of count nodes.now) l }
{
    if 1 < l.mark {
        return false;
    }
    if Edge::written(l.from, l.to) != l.ends() {
        return false;
    }
    if !stored_from(nodes, count, 0, l.from.id()) {
        return false;
    }
    stored_from(nodes, count, 0, l.to.id())
}

fn good_links(nodes: &[u64], links: &[u64], c: Counts) -> bool
    requires { (4 * c.nodes ≤ length nodes.now) × (3 * c.links ≤ length links.now) }
    ensures { result ≡ all (good_link (nodes_of c.nodes nodes.now)) (links_of c.links links.now) }
{
    for i in 0..c.links {
        if !good_link(nodes, c.nodes, Link::at(links, i)) {
            return false;
        }
    }
    true
}

// Whether a link with just these ends stands at slot `start` or later.
fn link_again(links: &[u64], count: usize, start: usize, e: Edge) -> bool
    requires { 3 * count ≤ length links.now }
    ensures { result ≡ any (λ s. same_ends e (ends s)) (drop start (links_of count links.now)) }
{
    for i in start..count {
        if e == Link::at(links, i).ends() {
            return true;
        }
    }
    false
}

fn links_once(links: &[u64], count: usize) -> bool
    requires { 3 * count ≤ length links.now }
    ensures { result ≡ links_once (links_of count links.now) }
{
    for i in 0..count {
        if link_again(links, count, i + 1, Link::at(links, i).ends()) {
            return false;
        }
    }
    true
}

pub fn ids_once(nodes: &[u64], count: usize) -> bool
    requires { 4 * count ≤ length nodes.now }
    ensures { result ≡ ids_once (nodes_of count nodes.now) }
{
    for i in 0..count {
        if stored_from(nodes, count, i + 1, Node::at(nodes, i).id) {
            return false;
        }
    }
    true
}

// Counts inside the lent arrays and 01's limits.
fn room_for(nodes: &[u64], text: &[u8], links: &[u64], c: Counts) -> bool
    ensures { result ≡ room_for nodes.now text.now links.now c }
{
    if 65536 < c.nodes {
        return false;
    }
    if nodes.len() < 4 * c.nodes {
        return false;
    }
    if 16777216 < c.letters {
        return false;
    }
    if text.len() < c.letters {
        return false;
    }
    if 131072 < c.links {
        return false;
    }
    3 * c.links <= links.len()
}

pub fn well_formed(nodes: &[u64], text: &[u8], links: &[u64], c: Counts) -> bool
    ensures { result ≡ well_formed nodes.now text.now links.now c }
{
    if !room_for(nodes, text, links, c) {
        return false;
    }
    let letters = c.letters;
    if !good_nodes(nodes, c.nodes, &text[..letters]) {
        return false;
    }
    if !good_links(nodes, links, c) {
        return false;
    }
    links_once(links, c.links)
}

fn unmarked_nodes(nodes: &[u64], count: usize) -> bool
    requires { 4 * count ≤ length nodes.now }
    ensures { result ≡ all unmarked_node (nodes_of count nodes.now) }
{
    for i in 0..count {
        if Node::at(nodes, i).mark != 0 {
            return false;
        }
    }
    true
}

fn unmarked_links(links: &[u64], count: usize) -> bool
    requires { 3 * count ≤ length links.now }
    ensures { result ≡ all unmarked_link (links_of count links.now) }
{
    for i in 0..count {
        if Link::at(links, i).mark != 0 {
            return false;
        }
    }
    true
}

// An old graph: well formed, and without marks.
pub fn old_formed(nodes: &[u64], text: &[u8], links: &[u64], c: Counts) -> bool
    ensures { result ≡ old_formed nodes.now text.now links.now c }
{
    if !well_formed(nodes, text, links, c) {
        return false;
    }
    if !unmarked_nodes(nodes, c.nodes) {
        return false;
    }
    unmarked_links(links, c.links)
}

// 13, else 5.
pub fn graph_number(nodes: &[u64], text: &[u8], links: &[u64], c: Counts) -> Result<(), Refusal>
    ensures { number_of result ≡ graph_number nodes.now text.now links.now c }
{
    if !well_formed(nodes, text, links, c) {
        return Err(Refusal::Malformed);
    }
    if !ids_once(nodes, c.nodes) {
        return Err(Refusal::Twice);
    }
    Ok(())
}
