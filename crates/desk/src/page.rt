// What goes to the graph's file: header, graph, paths.
ghost use Rattle.std.specs.Prelude.{◌≤◌, ◌≡◌, length};
ghost use Rattle.writing.specs.Outcome.{outcome, writing};
ghost use Rattle.checking.specs.CheckTransform.{lent};
ghost use Rattle.desk.specs.Page.{head_text, headed_outcome, page_outcome};

use events::Used;
use store::Counts;
use writing::{Written, put};

// The header, or the one that stands in for it, and a newline.
fn print_head(text: &[u8], out: &mut [u8]) -> Written
    ensures out_after { outcome result out.new ≡ writing (head_text text.now) out.old }
    ensures len_in_bounds { result.len ≤ length out.new }
{
    let header = gfaffix::parse_header::parse_header(text, b"H\tVN:Z:1.1");
    if out.len() <= header.len() {
        return Written { number: 7, len: 0 };
    }
    let at = kit::put_bytes(out, 0, header);
    let len = put::put_byte(out, at, 10);
    Written { number: 0, len }
}

fn print_headed(
    text: &[u8],
    nodes: &[u64],
    letters: &[u8],
    links: &[u64],
    d: Counts,
    out: &mut [u8],
) -> Written
    ensures out_after { outcome result out.new ≡ headed_outcome text.now (lent nodes.now letters.now links.now d) out.old }
    ensures len_in_bounds { result.len ≤ length out.new }
{
    let h = print_head(text, out);
    if h.number != 0 {
        return h;
    }
    let at = h.len;
    let g = gfaffix::print_active_subgraph::print_active_subgraph(
        nodes,
        letters,
        links,
        d,
        &mut out[at..],
    );
    if g.number != 0 {
        return Written {
            number: g.number,
            len: 0,
        };
    }
    Written {
        number: 0,
        len: at + g.len,
    }
}

// The new graph after the header, then the paths of the old one.
pub fn print_page(
    text: &[u8],
    old_nodes: &[u64],
    letters: &[u8],
    old_links: &[u64],
    c: Counts,
    nodes: &[u64],
    links: &[u64],
    d: Counts,
    rules: &[u64],
    steps: &[u64],
    u: Used,
    out: &mut [u8],
) -> Written
    ensures out_after { outcome result out.new ≡ page_outcome text.now (lent old_nodes.now letters.now old_links.now c) (lent nodes.now letters.now links.now d) rules.now steps.now u out.old }
    ensures len_in_bounds { result.len ≤ length out.new }
{
    let g = print_headed(text, nodes, letters, links, d, out);
    if g.number != 0 {
        return g;
    }
    let at = g.len;
    let p = gfaffix::parse_and_transform_paths::parse_and_transform_paths(
        text,
        old_nodes,
        letters,
        old_links,
        c,
        rules,
        steps,
        u,
        &mut out[at..],
    );
    if p.number != 0 {
        return Written {
            number: p.number,
            len: 0,
        };
    }
    Written {
        number: 0,
        len: at + p.len,
    }
}
