// The letters of the live nodes.
ghost use Rattle.std.specs.Prelude.{◌≡◌};
ghost use Rattle.asking.specs.LiveLetters.{letter_total};

use store::Counts;

// C gets it, so 01's number stands in it.
#[repr(C)]
#[derive(Clone, Copy)]
pub struct LetterTotal {
    pub number: u64,
    pub total: u64,
}

pub fn live_letters(nodes: &[u64], text: &[u8], links: &[u64], c: Counts) -> LetterTotal
    ensures { result ≡ letter_total nodes.now text.now links.now c }
{
    if let Err(why) = formed::graph_number(nodes, text, links, c) {
        let number = why.number();
        return LetterTotal { number, total: 0 };
    }
    let total = store::live_letters(nodes, c.nodes);
    LetterTotal { number: 0, total }
}
