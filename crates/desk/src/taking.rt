// The text read into rooms for the old graph, and that graph put at the front of larger ones.
ghost use Rattle.std.specs.Prelude.{◌≤◌, ◌≡◌, length};
ghost use Rattle.std.proofs.lemmas.List.Edits.{sets};
ghost use Rattle.reading.specs.Reading.{store};
ghost use Rattle.reading.specs.Outcome.{outcome};
ghost use Rattle.desk.specs.Desk.{taken_outcome};

use reading::Read;
use store::Counts;

// 01's limit of the program.
const MOST_TEXT: usize = 65536;

// A text above the limit is refused before it is looked at.
pub fn take_in(text: &[u8], nodes: &mut [u64], letters: &mut [u8], links: &mut [u64]) -> Read
    ensures { outcome result (store nodes.new letters.new links.new) ≡ taken_outcome (store nodes.old letters.old links.old) text.now }
{
    if MOST_TEXT < text.len() {
        let counts = Counts {
            nodes: 0,
            letters: 0,
            links: 0,
        };
        return Read { number: 7, counts };
    }
    gfaffix::read_gfa::read_gfa(text, nodes, letters, links)
}

pub fn put_front(from: &[u64], to: &mut [u64])
    requires { length from.now ≤ length to.old }
    ensures { to.new ≡ sets to.old 0 from.now }
{
    for i in 0..from.len() {
        to[i] = from[i];
    }
}
