// The links of a collapse, made in room of their own. There a mark says that a link is not live.
#![tactic(auto)]

ghost use Rattle.std.specs.Prelude.{IfSome, ◌+◌, ◌*◌, ◌≤◌, ◌<◌, ◌≡◌, true, false, cond, ◌||◌, [], ◌∷◌, ◌++◌, map, eqb, leb, length, drop};
ghost use Rattle.kit.specs.Layout.{encode};
ghost use Rattle.kit.specs.Loops.{all};
ghost use Rattle.handle.specs.Handle.{max_id, id_of};
ghost use Rattle.handle.specs.Edge.{edge, written};
ghost use Rattle.store.specs.Graph.{link, handle, link_layout, nodes_of, links_of};
ghost use Rattle.sides.specs.Sides.{next_above, packed_of};
ghost use Rattle.split.specs.Split.{split_links};
ghost use Rattle.merging.specs.Merging.{add_link, add_links, read_as};
ghost use Rattle.merging.specs.Plan.{bury, right_in, long_by, later_links_all, planned};
ghost use Rattle.linking.specs.Fit.{Makes, given_by, later_by, ends_named, Later, Plans};

use handle::{Edge, Handle};
use merging::parts;
use store::Link;

// Whether there is room for one link more.
fn one_fits(links: &[u64], count: usize) -> bool
    requires { 3 * count ≤ length links.now }
    ensures { result ≡ leb (3 * (count + 1)) (length links.now) }
{
    3 * count + 3 <= links.len()
}

// A link from x to y in its written form, at the end.
fn append_link(links: &mut [u64], count: usize, x: Handle, y: Handle) -> Option<usize>
    requires { 3 * count ≤ length links.old }
    ensures { Makes links.old (links_of count links.old ++ (link (written (edge x y)) 0 ∷ [])) result links.new }
{
    if !one_fits(links, count) {
        return None;
    }
    let e = Edge::written(x, y);
    split::push_link(links, count, e.from, e.to);
    Some(count + 1)
}

// One already stored is not made again.
fn add_link(links: &mut [u64], count: usize, x: Handle, y: Handle) -> Option<usize>
    requires { 3 * count ≤ length links.old }
    ensures { Makes links.old (add_link (edge x y) (links_of count links.old)) result links.new }
{
    // 01 names the form: a lookup taken apart at once.
    let Some(_) = store::find_link(links, count, x, y) else {
        return append_link(links, count, x, y);
    };
    Some(count)
}

// The next neighbour on v's right above a packed number, by an unmarked link. From the last link to the first, as
// `lowest` goes.
fn next_unmarked(links: &[u64], count: usize, v: Handle, above: u64) -> Option<Handle>
    requires { 3 * count ≤ length links.now }
    ensures value { packed_of result ≡ next_above above (right_in (links_of count links.now) v) }
    ensures some { IfSome result (λ h. 0 < h.packed) }
{
    let mut best: u64 = 0;
    for i in (0..count).rev() {
        let l = Link::at(links, i);
        if l.mark == 0 {
            best = sides::lead(v, l, above, best);
        }
    }
    sides::handle_of(best)
}

// The member itself is read as the shared node, either way round.
fn read_as(m: Handle, x: Handle, y: Handle) -> Handle
    ensures { result ≡ read_as m x y }
{
    let flip_m = m.flip();
    let flip_x = x.flip();
    if y == m {
        return x;
    }
    if y == flip_m {
        return flip_x;
    }
    y
}

// x is linked to m's neighbours, one after another. No link that is added is on m's node, so the search goes on along the
// neighbours that m had.
fn pass_on(links: &mut [u64], count: usize, m: Handle, x: Handle) -> Option<usize>
    requires count_in_bounds { 3 * count ≤ length links.old }
    requires m_value { (eqb (id_of x) (id_of m) ≡ false) × (all ends_named (links_of count links.old) ≡ true) }
    ensures { Makes links.old (add_links x (map (read_as m x) (right_in (links_of count links.old) m)) (links_of count links.old)) result links.new }
{
    let mut n = count;
    let mut above: u64 = 0;
    while let Some(y) = next_unmarked(links, n, m, above) {
        let to = read_as(m, x, y);
        let more = add_link(links, n, x, to)?;
        n = more;
        above = y.packed;
    }
    Some(n)
}

fn bury_mark(l: Link, id: u64) -> u64
    ensures { result ≡ cond (eqb (id_of l.from) id || eqb (id_of l.to) id) 1 l.mark }
{
    if l.from.id() == id || l.to.id() == id {
        return 1;
    }
    l.mark
}

fn bury_links(links: &mut [u64], count: usize, id: u64)
    requires { 3 * count ≤ length links.old }
    ensures { links.new ≡ encode link_layout (map (bury id) (links_of count links.old)) ++ drop (3 * count) links.old }
{
    for i in 0..count {
        // One number of the record: all of it would be read and written for that.
        links[3 * i + 2] = bury_mark(Link::at(links, i), id);
    }
}

// The links of a split, where there is room for the one that is new.
fn split_off(links: &mut [u64], count: usize, id: u64, fresh: u64) -> Option<usize>
    requires count_in_bounds { 3 * count ≤ length links.old }
    requires id_le_max_id { (id ≤ max_id) × (fresh ≤ max_id) }
    ensures { Makes links.old (split_links id fresh (links_of count links.old)) result links.new }
{
    if !one_fits(links, count) {
        return None;
    }
    split::split_links(links, count, id, fresh);
    Some(count + 1)
}

// x is linked to a long member's suffix, or to an exact one's neighbours.
fn give_links(
    links: &mut [u64],
    count: usize,
    m: Handle,
    x: Handle,
    fresh: u64,
    long: bool,
) -> Option<usize>
    requires count_in_bounds { 3 * count ≤ length links.old }
    requires m_bound { (id_of m ≤ max_id) × (long ≡ true → fresh ≤ max_id) }
    requires m_value { (eqb (id_of x) (id_of m) ≡ false) × (all ends_named (links_of count links.old) ≡ true) }
    ensures { Makes links.old (given_by long x fresh (links_of count links.old) m) result links.new }
{
    if !long {
        return pass_on(links, count, m, x);
    }
    let n = split_off(links, count, m.id(), fresh)?;
    add_link(links, n, x, parts::suffix_of(fresh, m))
}

// A later member: x is linked, and no link on the member's prefix is live any more.
fn later_links(
    links: &mut [u64],
    count: usize,
    m: Handle,
    x: Handle,
    fresh: u64,
    long: bool,
) -> Option<usize>
    requires count_in_bounds { 3 * count ≤ length links.old }
    requires m_bound { (id_of m ≤ max_id) × (long ≡ true → fresh ≤ max_id) }
    requires m_value { (eqb (id_of x) (id_of m) ≡ false) × (all ends_named (links_of count links.old) ≡ true) }
    ensures { Makes links.old (later_by long x fresh (links_of count links.old) m) result links.new }
{
    let n = give_links(links, count, m, x, fresh, long)?;
    let prefix = parts::prefix_of(long, fresh, m);
    bury_links(links, n, prefix.id());
    Some(n)
}

// Whether a member has more letters than p.
fn is_long(nodes: &[u64], node_count: usize, m: Handle, p: u64) -> bool
    requires { 4 * node_count ≤ length nodes.now }
    ensures { result ≡ long_by p (nodes_of node_count nodes.now) m }
{
    p < store::node_len(nodes, node_count, m.id())
}

// The members after the first.
fn later_all(
    nodes: &[u64],
    node_count: usize,
    links: &mut [u64],
    count: usize,
    members: &[u64],
    p: u64,
    x: Handle,
    fresh: u64,
) -> Option<usize>
    requires node_count_in_bounds { (4 * node_count ≤ length nodes.now) × (3 * count ≤ length links.old) }
    requires later { Later p (nodes_of node_count nodes.now) x fresh (links_of count links.old) (drop 1 (map handle members.now)) }
    ensures { Makes links.old (later_links_all p (nodes_of node_count nodes.now) x fresh (links_of count links.old) (drop 1 (map handle members.now))) result links.new }
{
    let mut n = count;
    let mut next = fresh;
    for i in 1..members.len() {
        let m = Handle { packed: members[i] };
        let long = is_long(nodes, node_count, m, p);
        let more = later_links(links, n, m, x, next, long)?;
        n = more;
        next = parts::fresh_after(next, long);
    }
    Some(n)
}

// A member's prefix stands alone.
fn alone_links(links: &mut [u64], count: usize, m: Handle, fresh: u64, long: bool) -> Option<usize>
    requires count_in_bounds { 3 * count ≤ length links.old }
    requires m_bound { (id_of m ≤ max_id) × (long ≡ true → fresh ≤ max_id) }
    ensures { Makes links.old (cond long (split_links (id_of m) fresh (links_of count links.old)) (links_of count links.old)) result links.new }
{
    if long {
        return split_off(links, count, m.id(), fresh);
    }
    Some(count)
}

// The links after a collapse: the first member's prefix is the shared node.
pub fn plan_links(
    nodes: &[u64],
    node_count: usize,
    links: &mut [u64],
    count: usize,
    members: &[u64],
    p: u64,
) -> Option<usize>
    requires node_count_in_bounds { (4 * node_count ≤ length nodes.now) × (3 * count ≤ length links.old) }
    requires plans { Plans p (nodes_of node_count nodes.now) (links_of count links.old) (map handle members.now) }
    ensures { Makes links.old (planned p (nodes_of node_count nodes.now) (links_of count links.old) (map handle members.now)) result links.new }
{
    let first = Handle { packed: members[0] };
    let fresh = store::largest_id(nodes, node_count) + 1;
    let long = is_long(nodes, node_count, first, p);
    let n = alone_links(links, count, first, fresh, long)?;
    let x = parts::prefix_of(long, fresh, first);
    let next = parts::fresh_after(fresh, long);
    later_all(nodes, node_count, links, n, members, p, x, next)
}
