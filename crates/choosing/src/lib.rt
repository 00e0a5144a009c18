// Which group the driver takes next. Who calls these has tested that the store is well formed.
#![tactic(auto)]

ghost use Rattle.std.specs.Prelude.{IfSome, ◌*◌, ◌≤◌, ◌<◌, ◌≡◌, true, [], ◌∷◌, length};
ghost use Rattle.kit.specs.Loops.{all, any};
ghost use Rattle.handle.specs.Handle.{max_id, is_id, pack};
ghost use Rattle.store.specs.Graph.{nodes_of, graph_of};
ghost use Rattle.formed.specs.WellFormed.{well_formed};
ghost use Rattle.sides.specs.Sides.{next_above, packed_of};
ghost use Rattle.sides.specs.Search.{lowest};
ghost use Rattle.affix.specs.Prefix.{handles_of};
ghost use Rattle.affix.specs.Reading.{Readable};
ghost use Rattle.choosing.specs.Scan.{scan_order, is_protected, must_collapse, next_group};
ghost use Rattle.choosing.specs.Search.{tried, first_group, Front, size_of};

use handle::Handle;
use store::{Counts, Node};

// The lower of both directions of a node, where they are above `above`, and the best so far, as `sides::lower` gives it.
fn lower_of_both(id: u64, above: u64, best: u64) -> u64
    requires { id ≤ max_id }
    ensures { result ≡ lowest above best (pack id 0 ∷ pack id 1 ∷ []) }
{
    let there = Handle::forward(id);
    let back = Handle::reverse(id);
    sides::lower(above, there.packed, sides::lower(above, back.packed, best))
}

// "Live nodes by rising id, forward then reverse" is the order of packed numbers: the next one above a number.
// From the last node to the first, as `lowest` goes.
fn next_scan(nodes: &[u64], count: usize, above: u64) -> Option<Handle>
    requires count_in_bounds { 4 * count ≤ length nodes.now }
    requires nodes_value { all (λ r. is_id r.id) (nodes_of count nodes.now) ≡ true }
    ensures value { packed_of result ≡ next_above above (scan_order (nodes_of count nodes.now)) }
    ensures some { IfSome result (λ h. 0 < h.packed) }
{
    let mut best: u64 = 0;
    for i in (0..count).rev() {
        let r = Node::at(nodes, i);
        if r.mark == 0 {
            best = lower_of_both(r.id, above, best);
        }
    }
    sides::handle_of(best)
}

fn has_protected(protected: &[u64], members: &[u64]) -> bool
    ensures { result ≡ any (is_protected protected.now) (handles_of members.now) }
{
    members
        .iter()
        .map(|m| Handle { packed: *m })
        .any(|h| protected::id_from(protected, 0, h.id()))
}

// Whether two or more members are a group that the driver collapses. No link is read, so the contract names none.
fn must_collapse(nodes: &[u64], text: &[u8], c: Counts, protected: &[u64], members: &[u64]) -> bool
    requires { Readable nodes.now text.now c × (2 ≤ length members.now) }
    ensures { result ≡ must_collapse (graph_of nodes.now text.now [] c) protected.now (handles_of members.now) }
{
    if !affix::members_once(members) {
        return false;
    }
    if has_protected(protected, members) {
        return false;
    }
    1 <= affix::prefix_len(nodes, text, c, members)
}

// If the group of u, a right neighbour of v, must be collapsed, puts it at the front of `members` and gives its size.
// A group that does not fit is passed over: it holds a node twice.
fn try_group(
    nodes: &[u64],
    text: &[u8],
    links: &[u64],
    c: Counts,
    v: Handle,
    u: Handle,
    protected: &[u64],
    members: &mut [u64],
) -> Option<usize>
    requires { (well_formed nodes.now text.now links.now c ≡ true) × (c.nodes ≤ length members.old) }
    ensures value { Front (tried (graph_of nodes.now text.now links.now c) protected.now v u) members.new (size_of result) }
    ensures some { IfSome result (λ n. 1 ≤ n) }
{
    let n = groups::count_of_key(nodes, text, links, c, v, u);
    if n < 2 {
        return None;
    }
    if members.len() < n {
        return None;
    }
    groups::write_group(nodes, text, links, c, v, u, 0, members);
    if must_collapse(nodes, text, c, protected, &members[..n]) {
        return Some(n);
    }
    None
}

// The first group of v that must be collapsed, handed out in the same way.
fn group_of(
    nodes: &[u64],
    text: &[u8],
    links: &[u64],
    c: Counts,
    v: Handle,
    protected: &[u64],
    members: &mut [u64],
) -> Option<usize>
    requires { (well_formed nodes.now text.now links.now c ≡ true) × (c.nodes ≤ length members.old) }
    ensures value { Front (first_group (graph_of nodes.now text.now links.now c) protected.now v) members.new (size_of result) }
    ensures some { IfSome result (λ n. 1 ≤ n) }
{
    let mut above: u64 = 0;
    while let Some(u) = groups::next_head(nodes, text, links, c, v, above) {
        if let Some(n) = try_group(nodes, text, links, c, v, u, protected, members) {
            return Some(n);
        }
        above = u.packed;
    }
    None
}

// The group that the driver takes next, at the front of `members`, and its size.
pub fn next_group(
    nodes: &[u64],
    text: &[u8],
    links: &[u64],
    c: Counts,
    protected: &[u64],
    members: &mut [u64],
) -> Option<usize>
    requires { (well_formed nodes.now text.now links.now c ≡ true) × (c.nodes ≤ length members.old) }
    ensures value { Front (next_group (graph_of nodes.now text.now links.now c) protected.now) members.new (size_of result) }
    ensures some { IfSome result (λ n. 1 ≤ n) }
{
    let mut above: u64 = 0;
    while let Some(v) = next_scan(nodes, c.nodes, above) {
        if let Some(n) = group_of(nodes, text, links, c, v, protected, members) {
            return Some(n);
        }
        above = v.packed;
    }
    None
}
