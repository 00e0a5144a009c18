// Live nodes by rising id and live links in written order, one at a time: each search is handed the last one and finds the next.
// Nothing is sorted, so that no room is asked for.
ghost use Rattle.std.specs.Prelude.{IfSome, ◌*◌, ◌≤◌, ◌<◌, ◌≡◌, true, false, length};
ghost use Rattle.kit.specs.Loops.{all};
ghost use Rattle.handle.specs.Handle.{is_id};
ghost use Rattle.store.specs.Graph.{nodes_of, links_of};
ghost use Rattle.store.specs.Views.{live_node};
ghost use Rattle.formed.specs.WellFormed.{links_once};
ghost use Rattle.sides.specs.Sides.{next_above, packed_of, bare};
ghost use Rattle.writing.specs.GraphText.{live_segments, live_links};
ghost use Rattle.writing.specs.Search.{ends_of, next_after, sooner};

use handle::{Edge, Handle};
use store::{Counts, Link, Node};

// The next live node, forward, above a packed number. From the last node to the first, as `lowest` goes.
pub fn next_segment(nodes: &[u64], count: usize, above: u64) -> Option<Handle>
    requires count_in_bounds { 4 * count ≤ length nodes.now }
    requires nodes_value { all (λ r. is_id r.id) (nodes_of count nodes.now) ≡ true }
    ensures value { packed_of result ≡ next_above above (live_segments (nodes_of count nodes.now)) }
    ensures some { IfSome result (λ h. 0 < h.packed) }
{
    let mut best: u64 = 0;
    for i in (0..count).rev() {
        let r = Node::at(nodes, i);
        if r.mark == 0 {
            let h = Handle::forward(r.id);
            best = sides::lower(above, h.packed, best);
        }
    }
    sides::handle_of(best)
}

// The sooner of f, where it is written after e, and the first so far. None so far is the edge of zeros, as `sooner` in
// specs/ goes along.
fn sooner(e: Edge, f: Edge, best: Edge) -> Edge
    ensures { result ≡ sooner e f best }
{
    if !e.before(f) {
        return best;
    }
    let from = best.from;
    if from.packed == 0 {
        return f;
    }
    if f.before(best) {
        return f;
    }
    best
}

// The ends of the next live link. Only a link that is sooner is asked whether it is live.
pub fn next_link(nodes: &[u64], links: &[u64], c: Counts, last: Edge) -> Option<Edge>
    requires nodes_in_bounds { (4 * c.nodes ≤ length nodes.now) × (3 * c.links ≤ length links.now) }
    requires nodes_value { (live_node 0 (nodes_of c.nodes nodes.now) ≡ false) × (links_once (links_of c.links links.now) ≡ true) }
    ensures value { ends_of result ≡ next_after last (live_links (bare nodes.now links.now c)) }
    ensures some { IfSome result (λ e. 0 < e.from.packed) }
{
    let mut best = Edge {
        from: Handle { packed: 0 },
        to: Handle { packed: 0 },
    };
    for i in (0..c.links).rev() {
        let l = Link::at(links, i);
        let found = sooner(last, l.ends(), best);
        if found != best && store::live_link(nodes, c.nodes, l) {
            best = found;
        }
    }
    let from = best.from;
    if from.packed == 0 {
        return None;
    }
    Some(best)
}
