// C's face of live_letters.
ghost use Rattle.std.specs.Prelude.{◌≡◌};
ghost use Rattle.asking.specs.LiveLetters.{letter_total};

use gfaffix::live_letters::LetterTotal;
use store::Counts;

#[unsafe(no_mangle)]
pub extern "C" fn gfaffix_live_letters(
    nodes: &[u64],
    text: &[u8],
    links: &[u64],
    c: Counts,
) -> LetterTotal
    ensures { result ≡ letter_total nodes.now text.now links.now c }
{
    gfaffix::live_letters::live_letters(nodes, text, links, c)
}
