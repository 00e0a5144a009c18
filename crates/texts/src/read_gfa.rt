// GFA text, read into a store.
ghost use Rattle.std.specs.Prelude.{◌≡◌};
ghost use Rattle.reading.specs.Reading.{store};
ghost use Rattle.reading.specs.Outcome.{outcome, read_outcome};

use reading::Read;

pub fn read_gfa(text: &[u8], nodes: &mut [u64], letters: &mut [u8], links: &mut [u64]) -> Read
    ensures { outcome result (store nodes.new letters.new links.new) ≡ read_outcome (store nodes.old letters.old links.old) text.now }
{
    reading::read_text(text, nodes, letters, links)
}
