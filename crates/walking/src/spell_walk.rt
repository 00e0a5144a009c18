// The letters of a walk, after its steps and the links between them have been looked up.
ghost use Rattle.std.specs.Prelude.{◌≡◌, []};
ghost use Rattle.kit.specs.Refusal.{number};
ghost use Rattle.store.specs.Graph.{graph_of};
ghost use Rattle.affix.specs.Prefix.{handles_of};
ghost use Rattle.affix.specs.Reading.{Readable};
ghost use Rattle.spelling.specs.Spelling.{spell_walk};
ghost use Rattle.walking.specs.SpellWalk.{outcome, answer, given, spell_outcome};

use kit::Refusal;
use store::Counts;

// C gets it, so 01's number stands in it.
#[repr(C)]
#[derive(Clone, Copy)]
pub struct Spelling {
    pub number: u64,
    pub place: usize,
    pub length: usize,
}

// Only a gap tells its place.
fn refuse(why: Refusal) -> Spelling
    ensures { result ≡ answer (number why) 0 0 }
{
    Spelling {
        number: why.number(),
        place: 0,
        length: 0,
    }
}

// Room is tested before anything is written, so that a refusal changes nothing.
fn give(nodes: &[u64], text: &[u8], c: Counts, walk: &[u64], out: &mut [u8]) -> Spelling
    requires { Readable nodes.now text.now c }
    ensures { outcome result out.new ≡ given (spell_walk (graph_of nodes.now text.now [] c) (handles_of walk.now)) out.old }
{
    let Some(length) = spelling::spelled_len(nodes, c.nodes, walk, out.len()) else {
        return refuse(Refusal::Room);
    };
    spelling::write_spelling(nodes, text, c, walk, out);
    Spelling {
        number: 0,
        place: 0,
        length,
    }
}

// A step is a packed oriented node.
#[tactic(auto, unfolding(crate::specs::SpellWalk::spell_outcome))]
pub fn spell_walk(
    nodes: &[u64],
    text: &[u8],
    links: &[u64],
    c: Counts,
    walk: &[u64],
    out: &mut [u8],
) -> Spelling
    ensures { outcome result out.new ≡ spell_outcome nodes.now text.now links.now c walk.now out.old }
{
    if let Err(why) = formed::graph_number(nodes, text, links, c) {
        return refuse(why);
    }
    if !spelling::all_stored(nodes, c.nodes, walk) {
        return refuse(Refusal::Absent);
    }
    if let Some(place) = spelling::first_gap(links, c.links, walk) {
        return Spelling {
            number: 23,
            place,
            length: 0,
        };
    }
    give(nodes, text, c, walk, out)
}
