// Pass one: what each line alone is refused for, and the segments.
ghost use Rattle.std.specs.Prelude.{◌*◌, ◌≤◌, ◌≡◌, length, IfOk, OnErr};
ghost use Rattle.text.specs.Pieces.{lines_of};
ghost use Rattle.reading.specs.Reading.{going, pass, pass_one_line};
ghost use Rattle.reading.specs.Held.{in_use, OnSegments};

use crate::add::add_segment;
use fields::check_line;
use kit::Refusal;
use lines::next_line;
use store::Counts;
use text::names::name_id;
use text::pieces::{field, is_line};

fn pass_one_line(
    nodes: &mut [u64],
    letters: &mut [u8],
    c: Counts,
    line: &[u8],
) -> Result<Counts, Refusal>
    requires { (4 * c.nodes ≤ length nodes.old) × (c.letters ≤ length letters.old) }
    ensures ok { IfOk result (λ n. (4 * n.nodes ≤ length nodes.new) × (n.letters ≤ length letters.new)) }
    ensures err { OnErr result ((nodes.new ≡ nodes.old) × (letters.new ≡ letters.old)) }
    ensures on_segments { OnSegments (λ l g. pass_one_line l g line.now) nodes.old letters.old c nodes.new letters.new result (in_use c result) }
{
    check_line(line)?;
    if !is_line(line, b'S') {
        return Ok(c);
    }
    let id = name_id(field(line, 1));
    add_segment(nodes, letters, c, id, field(line, 2))
}

// `used` counts what is in use, also after a refusal.
pub fn pass_one(
    text: &[u8],
    nodes: &mut [u64],
    letters: &mut [u8],
    used: &mut Counts,
) -> Result<(), Refusal>
    requires { (4 * used.old.nodes ≤ length nodes.old) × (used.old.letters ≤ length letters.old) }
    ensures { OnSegments (λ l g. pass (pass_one_line l) (going g) (lines_of text.now)) nodes.old letters.old used.old nodes.new letters.new result used.new }
{
    let mut at: usize = 0;
    loop {
        let end = next_line(text, at);
        *used = pass_one_line(nodes, letters, *used, &text[at..end])?;
        if end == text.len() {
            return Ok(());
        }
        at = end + 1;
    }
}
