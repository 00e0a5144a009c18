// C's face of read_gfa.
ghost use Rattle.std.specs.Prelude.{◌≡◌};
ghost use Rattle.reading.specs.Reading.{store};
ghost use Rattle.reading.specs.Outcome.{outcome, read_outcome};

use reading::Read;

#[unsafe(no_mangle)]
pub extern "C" fn gfaffix_read_gfa(
    text: &[u8],
    nodes: &mut [u64],
    letters: &mut [u8],
    links: &mut [u64],
) -> Read
    ensures { outcome result (store nodes.new letters.new links.new) ≡ read_outcome (store nodes.old letters.old links.old) text.now }
{
    gfaffix::read_gfa::read_gfa(text, nodes, letters, links)
}
