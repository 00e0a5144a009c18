// A refused reading leaves each array all zero.
ghost use Rattle.std.specs.Prelude.{◌≡◌};
ghost use Rattle.reading.specs.Outcome.{zeros};

pub fn clear_all(nodes: &mut [u64], letters: &mut [u8], links: &mut [u64])
    ensures nodes_after { nodes.new ≡ zeros nodes.old }
    ensures letters_after { letters.new ≡ zeros letters.old }
    ensures links_after { links.new ≡ zeros links.old }
{
    nodes.fill(0);
    letters.fill(0);
    links.fill(0);
}
