// Whether the new graph has kept what the old one had: 26 for nodes, 27 for links.
#![tactic(auto)]

ghost use Rattle.std.specs.Prelude.{◌+◌, ◌*◌, ◌≤◌, ◌<◌, ◌≡◌, true, cond, ◌||◌, [], eqb, leb, ltb, length, take, drop};
ghost use Rattle.kit.specs.Loops.{all, count};
ghost use Rattle.letters.specs.Sequences.{same_spelling};
ghost use Rattle.handle.specs.Edge.{edge_before};
ghost use Rattle.store.specs.Graph.{link, ends, links_of, graph_of};
ghost use Rattle.store.specs.Order.{written_order};
ghost use Rattle.formed.specs.WellFormed.{links_once};
ghost use Rattle.affix.specs.Reading.{Readable, read};
ghost use Rattle.events.specs.Events.{rules_of, list_of};
ghost use Rattle.events.specs.WellFormed.{table_formed};
ghost use Rattle.rewriting.specs.Rewriting.{ruled, transform_node};
ghost use Rattle.scanning.specs.Rules.{verdict, has_steps};
ghost use Rattle.keeping.specs.Kept.{node_kept, old_nodes, nodes_fault, first_of, link_kept, links_fault};
ghost use Rattle.keeping.specs.Search.{lost_links, ends_at};

use affix::Reading;
use events::{Rule, Used};
use handle::{Edge, Handle};
use scanning::Verdict;
use store::{Counts, Link, Node};

fn same_letters(oldtext: &[u8], r: Reading, text: &[u8], s: Reading) -> bool
    requires { (r.start + r.len ≤ length oldtext.now) × (s.start + s.len ≤ length text.now) }
    ensures { result ≡ same_spelling (read oldtext.now r) (read text.now s) }
{
    let len = r.len;
    if s.len != len {
        return false;
    }
    for i in 0..len {
        if !letters::same_letter(affix::letter(oldtext, r, i), affix::letter(text, s, i)) {
            return false;
        }
    }
    true
}

fn has_rule(rules: &[u64], used: usize, id: u64, len: u64) -> bool
    requires { 4 * used ≤ length rules.now }
    ensures { result ≡ ruled id len (rules_of used rules.now) }
{
    events::find_rule(rules, used, id, len).is_some()
}

// No link and no step is read for 26, so the contracts name none.
fn node_kept(
    oldnodes: &[u64],
    oldtext: &[u8],
    c: Counts,
    nodes: &[u64],
    text: &[u8],
    d: Counts,
    rules: &[u64],
    u: Used,
    h: Handle,
) -> bool
    requires { Readable oldnodes.now oldtext.now c × Readable nodes.now text.now d × (4 * u.rules ≤ length rules.now) }
    ensures { result ≡ node_kept (graph_of oldnodes.now oldtext.now [] c) (graph_of nodes.now text.now [] d) (list_of rules.now [] u) h }
{
    let id = h.id();
    if has_rule(rules, u.rules, id, store::node_len(oldnodes, c.nodes, id)) {
        return true;
    }
    if !store::live_node(nodes, d.nodes, id) {
        return false;
    }
    let r = affix::look_up(oldnodes, c.nodes, h.packed);
    let s = affix::look_up(nodes, d.nodes, h.packed);
    same_letters(oldtext, r, text, s)
}

// 26 at this node, unless it stands already at a lower one.
fn lower_fault(v: Verdict, id: u64) -> Verdict
    ensures { result ≡ cond (eqb v.number 0 || ltb id v.first) (verdict 26 id 0) v }
{
    let lost = Verdict {
        number: 26,
        first: id,
        second: 0,
    };
    if v.number == 0 {
        return lost;
    }
    if id < v.first {
        return lost;
    }
    v
}

// The first fault by rising id is the lowest id at fault, so the nodes may be met in any order.
pub fn nodes_fault(
    oldnodes: &[u64],
    oldtext: &[u8],
    c: Counts,
    nodes: &[u64],
    text: &[u8],
    d: Counts,
    rules: &[u64],
    u: Used,
) -> Verdict
    requires { Readable oldnodes.now oldtext.now c × Readable nodes.now text.now d × (4 * u.rules ≤ length rules.now) }
    ensures { result ≡ nodes_fault (graph_of oldnodes.now oldtext.now [] c) (graph_of nodes.now text.now [] d) (list_of rules.now [] u) (old_nodes (graph_of oldnodes.now oldtext.now [] c)) }
{
    let mut v = Verdict {
        number: 0,
        first: 0,
        second: 0,
    };
    for i in (0..c.nodes).rev() {
        let id = Node::at(oldnodes, i).id;
        if !node_kept(
            oldnodes,
            oldtext,
            c,
            nodes,
            text,
            d,
            rules,
            u,
            Handle::forward(id),
        ) {
            v = lower_fault(v, id);
        }
    }
    v
}

// The first step, packed, of what stands for an oriented old node.
fn first_step(oldnodes: &[u64], c: Counts, rules: &[u64], steps: &[u64], u: Used, h: Handle) -> u64
    requires { (4 * c.nodes ≤ length oldnodes.now) × (table_formed rules.now steps.now u ≡ true) × (all has_steps (rules_of u.rules rules.now) ≡ true) }
    ensures { result ≡ (first_of (transform_node (graph_of oldnodes.now [] [] c) (list_of rules.now steps.now u) h)).packed }
{
    let id = h.id();
    let len = store::node_len(oldnodes, c.nodes, id);
    let Some(i) = events::find_rule(rules, u.rules, id, len) else {
        return h.packed;
    };
    let r = Rule::at(rules, i);
    let first = r.first as usize;
    let count = r.steps as usize;
    let direction = h.direction();
    rewriting::image_step(steps, u.steps, first, count, direction, 0)
}

// The last step of an image is the first of the image turned round, flipped.
fn link_kept(
    oldnodes: &[u64],
    c: Counts,
    nodes: &[u64],
    links: &[u64],
    d: Counts,
    rules: &[u64],
    steps: &[u64],
    u: Used,
    e: Edge,
) -> bool
    requires nodes_in_bounds { (4 * c.nodes ≤ length oldnodes.now) × (4 * d.nodes ≤ length nodes.now) × (3 * d.links ≤ length links.now) }
    requires u_value { (table_formed rules.now steps.now u ≡ true) × (all has_steps (rules_of u.rules rules.now) ≡ true) }
    ensures { result ≡ link_kept (graph_of oldnodes.now [] [] c) (graph_of nodes.now [] links.now d) (list_of rules.now steps.now u) (link e 0) }
{
    let from = e.from;
    let start = first_step(oldnodes, c, rules, steps, u, from.flip());
    let back = Handle { packed: start };
    let next = first_step(oldnodes, c, rules, steps, u, e.to);
    store::live_linked(nodes, links, d, back.flip(), Handle { packed: next })
}

fn ends_at(links: &[u64], i: usize) -> Edge
    requires { 3 * i + 3 ≤ length links.now }
    ensures { result ≡ ends_at links.now i }
{
    Link::at(links, i).ends()
}

// Of two slots the one whose link is written first; `best` may be past all links, which is none so far.
fn earlier(links: &[u64], count: usize, i: usize, best: usize) -> usize
    requires { (3 * count ≤ length links.now) × (i < count) }
    ensures { result ≡ cond (leb count best || edge_before (ends_at links.now i) (ends_at links.now best)) i best }
{
    if count <= best {
        return i;
    }
    let e = ends_at(links, i);
    if e.before(ends_at(links, best)) {
        return i;
    }
    best
}

// The slot of the first link, in written order, that has no live counterpart; past all links where each has one.
fn first_lost(
    oldnodes: &[u64],
    oldlinks: &[u64],
    c: Counts,
    nodes: &[u64],
    links: &[u64],
    d: Counts,
    rules: &[u64],
    steps: &[u64],
    u: Used,
) -> usize
    requires nodes_in_bounds { (4 * c.nodes ≤ length oldnodes.now) × (3 * c.links ≤ length oldlinks.now) × (4 * d.nodes ≤ length nodes.now) × (3 * d.links ≤ length links.now) }
    requires u_value { (table_formed rules.now steps.now u ≡ true) × (all has_steps (rules_of u.rules rules.now) ≡ true) × (links_once (links_of c.links oldlinks.now) ≡ true) }
    ensures { take 1 (drop result (links_of c.links oldlinks.now)) ≡ take 1 (lost_links (graph_of oldnodes.now [] [] c) (graph_of nodes.now [] links.now d) (list_of rules.now steps.now u) (links_of c.links oldlinks.now)) }
{
    let count = c.links;
    let mut best = count;
    for i in (0..count).rev() {
        if !link_kept(
            oldnodes,
            c,
            nodes,
            links,
            d,
            rules,
            steps,
            u,
            ends_at(oldlinks, i),
        ) {
            best = earlier(oldlinks, count, i, best);
        }
    }
    best
}

// How many links are written before this one.
fn links_before(links: &[u64], total: usize, e: Edge) -> usize
    requires { 3 * total ≤ length links.now }
    ensures { result ≡ count (λ s. edge_before (ends s) e) (links_of total links.now) }
{
    let mut n: usize = 0;
    for i in 0..total {
        let f = ends_at(links, i);
        if f.before(e) {
            n += 1;
        }
    }
    n
}

// No link is stored twice, so a link's position is the number of those written before it.
pub fn links_fault(
    oldnodes: &[u64],
    oldlinks: &[u64],
    c: Counts,
    nodes: &[u64],
    links: &[u64],
    d: Counts,
    rules: &[u64],
    steps: &[u64],
    u: Used,
) -> Verdict
    requires nodes_in_bounds { (4 * c.nodes ≤ length oldnodes.now) × (3 * c.links ≤ length oldlinks.now) × (4 * d.nodes ≤ length nodes.now) × (3 * d.links ≤ length links.now) }
    requires u_value { (table_formed rules.now steps.now u ≡ true) × (all has_steps (rules_of u.rules rules.now) ≡ true) × (links_once (links_of c.links oldlinks.now) ≡ true) }
    ensures { result ≡ links_fault (graph_of oldnodes.now [] [] c) (graph_of nodes.now [] links.now d) (list_of rules.now steps.now u) 0 (written_order (links_of c.links oldlinks.now)) }
{
    let count = c.links;
    let k = first_lost(oldnodes, oldlinks, c, nodes, links, d, rules, steps, u);
    if count <= k {
        return Verdict {
            number: 0,
            first: 0,
            second: 0,
        };
    }
    let place = links_before(oldlinks, count, ends_at(oldlinks, k)) as u64;
    Verdict {
        number: 27,
        first: place,
        second: 0,
    }
}
