// One segment more, one link more. What is refused leaves the arrays as they are.
ghost use Rattle.std.specs.Prelude.{ℕ, ◌+◌, ◌*◌, ◌≤◌, ◌≡◌, false, List, [], length, IfOk, OnErr};
ghost use Rattle.handle.specs.Edge.{edge};
ghost use Rattle.store.specs.Graph.{nodes_of, links_of};
ghost use Rattle.store.specs.Views.{stored, linked};
ghost use Rattle.formed.specs.WellFormed.{room_for};
ghost use Rattle.reading.specs.Reading.{add_segment, add_link};
ghost use Rattle.reading.specs.Held.{counts, in_use, OnSegments, OnLinks};

use handle::{Edge, Handle};
use kit::Refusal;
use store::Counts;

// Whether there is room for one node and `more` letters more. The tests are in an order in which none can overflow.
fn segment_fits(nodes: &[u64], letters: &[u8], c: Counts, more: usize) -> bool
    requires { (4 * c.nodes ≤ length nodes.now) × (c.letters ≤ length letters.now) }
    ensures { result ≡ room_for nodes.now letters.now [] (counts (c.nodes + 1) (c.letters + more) 0) }
{
    c.nodes < 65536
        && 4 * (c.nodes + 1) <= nodes.len()
        && more <= letters.len() - c.letters
        && c.letters + more <= 16777216
}

// The segment at the end.
fn append_segment(
    nodes: &mut [u64],
    letters: &mut [u8],
    c: Counts,
    id: u64,
    s: &[u8],
) -> Result<Counts, Refusal>
    requires nodes_in_bounds { (4 * c.nodes ≤ length nodes.old) × (c.letters ≤ length letters.old) }
    requires nodes_value { stored id (nodes_of c.nodes nodes.old) ≡ false }
    ensures ok { IfOk result (λ n. (4 * n.nodes ≤ length nodes.new) × (n.letters ≤ length letters.new)) }
    ensures err { OnErr result ((nodes.new ≡ nodes.old) × (letters.new ≡ letters.old)) }
    ensures on_segments { OnSegments (λ l g. add_segment l g id s.now) nodes.old letters.old c nodes.new letters.new result (in_use c result) }
{
    if !segment_fits(nodes, letters, c, s.len()) {
        return Err(Refusal::Room);
    }
    let count = c.nodes;
    let at = c.letters;
    split::push_node(nodes, count, id, at as u64, s.len() as u64, 0);
    let end = kit::put_bytes(letters, at, s);
    Ok(Counts {
        nodes: count + 1,
        letters: end,
        links: c.links,
    })
}

// Twice, then room.
pub fn add_segment(
    nodes: &mut [u64],
    letters: &mut [u8],
    c: Counts,
    id: u64,
    s: &[u8],
) -> Result<Counts, Refusal>
    requires { (4 * c.nodes ≤ length nodes.old) × (c.letters ≤ length letters.old) }
    ensures ok { IfOk result (λ n. (4 * n.nodes ≤ length nodes.new) × (n.letters ≤ length letters.new)) }
    ensures err { OnErr result ((nodes.new ≡ nodes.old) × (letters.new ≡ letters.old)) }
    ensures on_segments { OnSegments (λ l g. add_segment l g id s.now) nodes.old letters.old c nodes.new letters.new result (in_use c result) }
{
    if store::find_node(nodes, c.nodes, id).is_some() {
        return Err(Refusal::Twice);
    }
    append_segment(nodes, letters, c, id, s)
}

// Whether there is room for one link more.
fn link_fits(links: &[u64], count: usize) -> bool
    ensures { result ≡ room_for [] [] links.now (counts 0 0 (count + 1)) }
{
    count < 131072 && 3 * (count + 1) <= links.len()
}

// The link at the end, in its written form.
fn append_link(links: &mut [u64], c: Counts, u: Handle, v: Handle) -> Result<Counts, Refusal>
    requires links_in_bounds { 3 * c.links ≤ length links.old }
    requires links_value { linked (edge u v) (links_of c.links links.old) ≡ false }
    ensures ok { IfOk result (λ n. (n.nodes ≡ c.nodes) × (3 * n.links ≤ length links.new)) }
    ensures err { OnErr result (links.new ≡ links.old) }
    ensures by_index { (nodes : List ℕ) → OnLinks (λ l g. add_link l g (edge u v)) nodes links.old c links.new result (in_use c result) }
{
    let count = c.links;
    if !link_fits(links, count) {
        return Err(Refusal::Room);
    }
    let w = Edge::written(u, v);
    split::push_link(links, count, w.from, w.to);
    Ok(Counts {
        nodes: c.nodes,
        letters: c.letters,
        links: count + 1,
    })
}

// A link that is stored already, in either form, is not stored again and takes no room.
pub fn add_link(links: &mut [u64], c: Counts, u: Handle, v: Handle) -> Result<Counts, Refusal>
    requires { 3 * c.links ≤ length links.old }
    ensures ok { IfOk result (λ n. (n.nodes ≡ c.nodes) × (3 * n.links ≤ length links.new)) }
    ensures err { OnErr result (links.new ≡ links.old) }
    ensures by_index { (nodes : List ℕ) → OnLinks (λ l g. add_link l g (edge u v)) nodes links.old c links.new result (in_use c result) }
{
    if store::find_link(links, c.links, u, v).is_some() {
        return Ok(c);
    }
    append_link(links, c, u, v)
}
