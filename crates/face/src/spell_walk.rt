// C's face of spell_walk.
ghost use Rattle.std.specs.Prelude.{◌≡◌};
ghost use Rattle.walking.specs.SpellWalk.{outcome, spell_outcome};

use gfaffix::spell_walk::Spelling;
use store::Counts;

#[unsafe(no_mangle)]
pub extern "C" fn gfaffix_spell_walk(
    nodes: &[u64],
    text: &[u8],
    links: &[u64],
    c: Counts,
    walk: &[u64],
    out: &mut [u8],
) -> Spelling
    ensures { outcome result out.new ≡ spell_outcome nodes.now text.now links.now c walk.now out.old }
{
    gfaffix::spell_walk::spell_walk(nodes, text, links, c, walk, out)
}
