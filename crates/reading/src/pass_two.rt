// Pass two: links, and what links, paths and walks name.
ghost use Rattle.std.specs.Prelude.{◌*◌, ◌≤◌, ◌≡◌, length, IfOk, OnErr};
ghost use Rattle.text.specs.Pieces.{lines_of};
ghost use Rattle.reading.specs.Reading.{going, pass, pass_two_line};
ghost use Rattle.reading.specs.Held.{in_use, OnLinks};

use crate::add::add_link;
use crate::steps::said_stored;
use fields::edge_of;
use kit::Refusal;
use lines::next_line;
use store::Counts;
use text::pieces::is_line;

fn pass_two_line(
    nodes: &[u64],
    links: &mut [u64],
    c: Counts,
    line: &[u8],
) -> Result<Counts, Refusal>
    requires { (4 * c.nodes ≤ length nodes.now) × (3 * c.links ≤ length links.old) }
    ensures ok { IfOk result (λ n. (n.nodes ≡ c.nodes) × (3 * n.links ≤ length links.new)) }
    ensures err { OnErr result (links.new ≡ links.old) }
    ensures on_links { OnLinks (λ l g. pass_two_line l g line.now) nodes.now links.old c links.new result (in_use c result) }
{
    if !said_stored(nodes, c.nodes, line) {
        return Err(Refusal::Absent);
    }
    if !is_line(line, b'L') {
        return Ok(c);
    }
    let e = edge_of(line);
    add_link(links, c, e.from, e.to)
}

// As in pass one.
pub fn pass_two(
    text: &[u8],
    nodes: &[u64],
    links: &mut [u64],
    used: &mut Counts,
) -> Result<(), Refusal>
    requires { (4 * used.old.nodes ≤ length nodes.now) × (3 * used.old.links ≤ length links.old) }
    ensures { OnLinks (λ l g. pass (pass_two_line l) (going g) (lines_of text.now)) nodes.now links.old used.old links.new result used.new }
{
    let mut at: usize = 0;
    loop {
        let end = next_line(text, at);
        *used = pass_two_line(nodes, links, *used, &text[at..end])?;
        if end == text.len() {
            return Ok(());
        }
        at = end + 1;
    }
}
