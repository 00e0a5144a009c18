// Live neighbours of an oriented node, on its right and on its left.
#![tactic(auto)]

ghost use Rattle.std.specs.Prelude.{IfSome, ◌*◌, ◌≤◌, ◌<◌, ◌≡◌, false, cond, [], ◌∷◌, length};
ghost use Rattle.kit.specs.Loops.{all};
ghost use Rattle.handle.specs.Edge.{edge};
ghost use Rattle.store.specs.Graph.{nodes_of};
ghost use Rattle.store.specs.Views.{live_node, live_linked};
ghost use Rattle.sides.specs.Sides.{right_ends, right_of, left_ends, left_of, left_in, same_left, next_above, packed_of, nth_of, bare};
ghost use Rattle.sides.specs.Search.{lower, lowest, side_ends, side_of};

use handle::Handle;
use store::{Counts, Link};

// The lower of n, where it is above `above`, and the best so far; 0 is none so far. A number, as `lowest` in specs/ goes
// along: an Option would be taken apart at every link.
pub fn lower(above: u64, n: u64, best: u64) -> u64
    ensures { result ≡ lower above n best }
{
    if n <= above {
        return best;
    }
    if best == 0 || n < best {
        return n;
    }
    best
}

// The one that such a search ends with, if any.
pub fn handle_of(best: u64) -> Option<Handle>
    ensures value { packed_of result ≡ best }
    ensures some { IfSome result (λ h. 0 < h.packed) }
{
    if best == 0 {
        return None;
    }
    Some(Handle { packed: best })
}

// The same as `lower` with u, where it is given.
fn offer(given: bool, u: Handle, above: u64, best: u64) -> u64
    ensures { result ≡ lowest above best (cond given (u ∷ []) []) }
{
    if !given {
        return best;
    }
    lower(above, u.packed, best)
}

// Where a link leads from v: by its own form, and by its other one. A number, as `lower` gives.
pub fn lead(v: Handle, l: Link, above: u64, best: u64) -> u64
    ensures { result ≡ lowest above best (right_ends v l) }
{
    let near = l.to.flip();
    let other = offer(near == v, l.from.flip(), above, best);
    offer(l.from == v, l.to, above, other)
}

// On the left a link is read from its other end. By a flag, as `side_of` is: a closure would hide which list is meant.
fn lead_side(left: bool, v: Handle, l: Link, above: u64, best: u64) -> u64
    ensures { result ≡ lowest above best (side_ends left v l) }
{
    if left {
        let turned = Link {
            from: l.to,
            to: l.from,
            mark: l.mark,
        };
        return lead(v, turned, above, best);
    }
    lead(v, l, above, best)
}

// From the last link to the first, as `lowest` goes. Only a link that leads to a lower neighbour is asked whether it is live.
fn next_side(
    nodes: &[u64],
    links: &[u64],
    c: Counts,
    left: bool,
    v: Handle,
    above: u64,
) -> Option<Handle>
    requires { (4 * c.nodes ≤ length nodes.now) × (3 * c.links ≤ length links.now) }
    ensures value { packed_of result ≡ next_above above (side_of left (bare nodes.now links.now c) v) }
    ensures some { IfSome result (λ h. 0 < h.packed) }
{
    let mut best: u64 = 0;
    for i in (0..c.links).rev() {
        let found = lead_side(left, v, Link::unmarked_at(links, i), above, best);
        if found != best && store::live_link(nodes, c.nodes, Link::at(links, i)) {
            best = found;
        }
    }
    handle_of(best)
}

// The next live right neighbour above a packed number, and the next left one.
pub fn next_right(nodes: &[u64], links: &[u64], c: Counts, v: Handle, above: u64) -> Option<Handle>
    requires { (4 * c.nodes ≤ length nodes.now) × (3 * c.links ≤ length links.now) }
    ensures value { packed_of result ≡ next_above above (right_of (bare nodes.now links.now c) v) }
    ensures some { IfSome result (λ h. 0 < h.packed) }
{
    next_side(nodes, links, c, false, v, above)
}

pub fn next_left(nodes: &[u64], links: &[u64], c: Counts, v: Handle, above: u64) -> Option<Handle>
    requires { (4 * c.nodes ≤ length nodes.now) × (3 * c.links ≤ length links.now) }
    ensures value { packed_of result ≡ next_above above (left_of (bare nodes.now links.now c) v) }
    ensures some { IfSome result (λ h. 0 < h.packed) }
{
    next_side(nodes, links, c, true, v, above)
}

// How many neighbours there are, from one to the next. All stand above 0: no live node has id 0.
fn count_side(nodes: &[u64], links: &[u64], c: Counts, left: bool, v: Handle) -> usize
    requires nodes_in_bounds { (4 * c.nodes ≤ length nodes.now) × (3 * c.links ≤ length links.now) }
    requires nodes_value { live_node 0 (nodes_of c.nodes nodes.now) ≡ false }
    ensures { result ≡ length (side_of left (bare nodes.now links.now c) v) }
{
    let mut n: usize = 0;
    let mut above: u64 = 0;
    while let Some(u) = next_side(nodes, links, c, left, v, above) {
        n += 1;
        above = u.packed;
    }
    n
}

fn nth_side(
    nodes: &[u64],
    links: &[u64],
    c: Counts,
    left: bool,
    v: Handle,
    k: usize,
) -> Option<Handle>
    requires nodes_in_bounds { (4 * c.nodes ≤ length nodes.now) × (3 * c.links ≤ length links.now) }
    requires nodes_value { live_node 0 (nodes_of c.nodes nodes.now) ≡ false }
    ensures value { packed_of result ≡ nth_of k (side_of left (bare nodes.now links.now c) v) }
    ensures some { IfSome result (λ h. 0 < h.packed) }
{
    let mut n: usize = 0;
    let mut above: u64 = 0;
    while let Some(u) = next_side(nodes, links, c, left, v, above) {
        if n == k {
            return Some(u);
        }
        n += 1;
        above = u.packed;
    }
    None
}

// How many live neighbours v has on a side.
pub fn count_right(nodes: &[u64], links: &[u64], c: Counts, v: Handle) -> usize
    requires nodes_in_bounds { (4 * c.nodes ≤ length nodes.now) × (3 * c.links ≤ length links.now) }
    requires nodes_value { live_node 0 (nodes_of c.nodes nodes.now) ≡ false }
    ensures { result ≡ length (right_of (bare nodes.now links.now c) v) }
{
    count_side(nodes, links, c, false, v)
}

pub fn count_left(nodes: &[u64], links: &[u64], c: Counts, v: Handle) -> usize
    requires nodes_in_bounds { (4 * c.nodes ≤ length nodes.now) × (3 * c.links ≤ length links.now) }
    requires nodes_value { live_node 0 (nodes_of c.nodes nodes.now) ≡ false }
    ensures { result ≡ length (left_of (bare nodes.now links.now c) v) }
{
    count_side(nodes, links, c, true, v)
}

// Its k-th, in rising order from 0.
pub fn nth_right(nodes: &[u64], links: &[u64], c: Counts, v: Handle, k: usize) -> Option<Handle>
    requires nodes_in_bounds { (4 * c.nodes ≤ length nodes.now) × (3 * c.links ≤ length links.now) }
    requires nodes_value { live_node 0 (nodes_of c.nodes nodes.now) ≡ false }
    ensures value { packed_of result ≡ nth_of k (right_of (bare nodes.now links.now c) v) }
    ensures some { IfSome result (λ h. 0 < h.packed) }
{
    nth_side(nodes, links, c, false, v, k)
}

pub fn nth_left(nodes: &[u64], links: &[u64], c: Counts, v: Handle, k: usize) -> Option<Handle>
    requires nodes_in_bounds { (4 * c.nodes ≤ length nodes.now) × (3 * c.links ≤ length links.now) }
    requires nodes_value { live_node 0 (nodes_of c.nodes nodes.now) ≡ false }
    ensures value { packed_of result ≡ nth_of k (left_of (bare nodes.now links.now c) v) }
    ensures some { IfSome result (λ h. 0 < h.packed) }
{
    nth_side(nodes, links, c, true, v, k)
}

// Whether w, where it is given, is a live left neighbour of v.
fn among(nodes: &[u64], links: &[u64], c: Counts, given: bool, w: Handle, v: Handle) -> bool
    requires { (4 * c.nodes ≤ length nodes.now) × (3 * c.links ≤ length links.now) }
    ensures { result ≡ all (λ h. live_linked (bare nodes.now links.now c) (edge h v)) (cond given (w ∷ []) []) }
{
    !given || store::live_linked(nodes, links, c, w, v)
}

// Whether each left neighbour that a link gives u is one of v.
fn shared(nodes: &[u64], links: &[u64], c: Counts, u: Handle, v: Handle, l: Link) -> bool
    requires { (4 * c.nodes ≤ length nodes.now) × (3 * c.links ≤ length links.now) }
    ensures { result ≡ all (λ h. live_linked (bare nodes.now links.now c) (edge h v)) (left_ends u l) }
{
    let near = l.from.flip();
    among(nodes, links, c, l.to == u, l.from, v)
        && among(nodes, links, c, near == u, l.to.flip(), v)
}

// Whether each live left neighbour of u is one of v. Only a link to one that v lacks is asked whether it is live.
pub fn left_in(nodes: &[u64], links: &[u64], c: Counts, u: Handle, v: Handle) -> bool
    requires { (4 * c.nodes ≤ length nodes.now) × (3 * c.links ≤ length links.now) }
    ensures { result ≡ left_in (bare nodes.now links.now c) u v }
{
    for i in 0..c.links {
        if !shared(nodes, links, c, u, v, Link::unmarked_at(links, i)) {
            if store::live_link(nodes, c.nodes, Link::at(links, i)) {
                return false;
            }
        }
    }
    true
}

// Whether u and v have the same set of live left neighbours.
pub fn same_left(nodes: &[u64], links: &[u64], c: Counts, u: Handle, v: Handle) -> bool
    requires { (4 * c.nodes ≤ length nodes.now) × (3 * c.links ≤ length links.now) }
    ensures { result ≡ same_left (bare nodes.now links.now c) u v }
{
    left_in(nodes, links, c, u, v) && left_in(nodes, links, c, v, u)
}
