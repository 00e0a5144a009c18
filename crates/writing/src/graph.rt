// The live part of a graph as text. Who calls these has tested that the store is well formed.
ghost use Rattle.std.specs.Prelude.{◌+◌, ◌*◌, ◌^◌, ◌≤◌, ◌<◌, ◌≡◌, true, false, [], ◌++◌, length};
ghost use Rattle.kit.specs.Decimal.{decimal};
ghost use Rattle.kit.specs.Loops.{lines};
ghost use Rattle.handle.specs.Handle.{dir_of};
ghost use Rattle.store.specs.Graph.{link, nodes_of, links_of, graph_of};
ghost use Rattle.store.specs.Views.{live_node};
ghost use Rattle.formed.specs.WellFormed.{links_once, well_formed};
ghost use Rattle.sides.specs.Sides.{bare};
ghost use Rattle.affix.specs.Reading.{Readable};
ghost use Rattle.text.specs.Bytes.{bytes};
ghost use Rattle.writing.specs.Filled.{Filled};
ghost use Rattle.writing.specs.GraphText.{segment_line, link_line, live_segments, live_links, graph_text};
ghost use Rattle.writing.specs.Outcome.{outcome, writing};

use crate::{Written, along, marks, put};
use handle::{Edge, Handle};
use store::Counts;

fn fill_node(id: u64, letters: &[u8], at: usize, out: &mut [u8]) -> usize
    requires { at + length (decimal id) + length letters.now + 4 < 2 ^ 64 }
    ensures { Filled out.old at (bytes "S\t" ++ decimal id ++ bytes "\t" ++ letters.now ++ bytes "\n") out.new result }
{
    let p = put::fill_bytes(out, at, b"S\t");
    let q = put::fill_number(out, p, id);
    let s = put::fill_bytes(out, q, b"\t");
    let t = put::fill_bytes(out, s, letters);
    put::fill_bytes(out, t, b"\n")
}

// The line of a node, handed forward. No link is read for it, so the contract names none.
fn fill_segment(
    nodes: &[u64],
    text: &[u8],
    c: Counts,
    h: Handle,
    at: usize,
    out: &mut [u8],
) -> usize
    requires readable { Readable nodes.now text.now c × (dir_of h ≡ 0) }
    requires h_bound { at + length (segment_line (graph_of nodes.now text.now [] c) h) < 2 ^ 64 }
    ensures { Filled out.old at (segment_line (graph_of nodes.now text.now [] c) h) out.new result }
{
    let r = affix::look_up(nodes, c.nodes, h.packed);
    let start = r.start;
    let end = start + r.len;
    fill_node(h.id(), &text[start..end], at, out)
}

fn fill_segments(nodes: &[u64], text: &[u8], c: Counts, at: usize, out: &mut [u8]) -> usize
    requires readable { Readable nodes.now text.now c }
    requires nodes_bound { at + length (lines (segment_line (graph_of nodes.now text.now [] c)) (live_segments (nodes_of c.nodes nodes.now))) < 2 ^ 64 }
    ensures { Filled out.old at (lines (segment_line (graph_of nodes.now text.now [] c)) (live_segments (nodes_of c.nodes nodes.now))) out.new result }
{
    let mut place = at;
    let mut above: u64 = 0;
    while let Some(h) = along::next_segment(nodes, c.nodes, above) {
        place = fill_segment(nodes, text, c, h, place, out);
        above = h.packed;
    }
    place
}

fn fill_link(e: Edge, at: usize, out: &mut [u8]) -> usize
    requires { at + length (link_line (link e 0)) < 2 ^ 64 }
    ensures { Filled out.old at (link_line (link e 0)) out.new result }
{
    let p = put::fill_bytes(out, at, b"L\t");
    let q = marks::fill_end(out, p, e.from);
    let s = marks::fill_end(out, q, e.to);
    put::fill_bytes(out, s, b"0M\n")
}

fn fill_links(nodes: &[u64], links: &[u64], c: Counts, at: usize, out: &mut [u8]) -> usize
    requires nodes_in_bounds { (4 * c.nodes ≤ length nodes.now) × (3 * c.links ≤ length links.now) }
    requires nodes_value { (live_node 0 (nodes_of c.nodes nodes.now) ≡ false) × (links_once (links_of c.links links.now) ≡ true) }
    requires c_bound { at + length (lines link_line (live_links (bare nodes.now links.now c))) < 2 ^ 64 }
    ensures { Filled out.old at (lines link_line (live_links (bare nodes.now links.now c))) out.new result }
{
    let mut place = at;
    let mut last = Edge {
        from: Handle { packed: 0 },
        to: Handle { packed: 0 },
    };
    while let Some(e) = along::next_link(nodes, links, c, last) {
        place = fill_link(e, place, out);
        last = e;
    }
    place
}

fn fill_graph(nodes: &[u64], text: &[u8], links: &[u64], c: Counts, out: &mut [u8]) -> usize
    requires { well_formed nodes.now text.now links.now c ≡ true }
    ensures { Filled out.old 0 (graph_text (graph_of nodes.now text.now links.now c)) out.new result }
{
    let at = fill_segments(nodes, text, c, 0, out);
    fill_links(nodes, links, c, at, out)
}

// Measured in an empty room first, so that a refusal changes no byte.
pub fn print_graph(nodes: &[u64], text: &[u8], links: &[u64], c: Counts, out: &mut [u8]) -> Written
    requires { well_formed nodes.now text.now links.now c ≡ true }
    ensures { outcome result out.new ≡ writing (graph_text (graph_of nodes.now text.now links.now c)) out.old }
{
    let len = fill_graph(nodes, text, links, c, &mut out[..0]);
    if out.len() < len {
        return Written { number: 7, len: 0 };
    }
    fill_graph(nodes, text, links, c, out);
    Written { number: 0, len }
}
