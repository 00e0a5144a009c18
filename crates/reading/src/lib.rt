// Reading GFA text into a store, in two passes.
#![tactic(auto)]

pub mod add;
pub mod clear;
pub mod pass_one;
pub mod pass_two;
pub mod steps;

ghost use Rattle.std.specs.Prelude.{◌≡◌};
ghost use Rattle.reading.specs.Reading.{store, read_text};
ghost use Rattle.reading.specs.Outcome.{outcome, read_outcome};
ghost use Rattle.reading.specs.Held.{Came};

use clear::clear_all;
use kit::Refusal;
use pass_one::pass_one;
use pass_two::pass_two;
use store::Counts;

// 01's number, and what was read. C gets it.
#[repr(C)]
#[derive(Clone, Copy)]
pub struct Read {
    pub number: u64,
    pub counts: Counts,
}

const NONE: Counts = Counts {
    nodes: 0,
    letters: 0,
    links: 0,
};

// A refusal in the first pass leaves nothing to the second.
fn both_passes(
    text: &[u8],
    nodes: &mut [u64],
    letters: &mut [u8],
    links: &mut [u64],
    used: &mut Counts,
) -> Result<(), Refusal>
    ensures { Came (store nodes.old letters.old links.old) (read_text (store nodes.old letters.old links.old) text.now) (store nodes.new letters.new links.new) result used.new }
{
    *used = NONE;
    pass_one(text, nodes, letters, used)?;
    pass_two(text, nodes, links, used)
}

pub fn read_text(text: &[u8], nodes: &mut [u64], letters: &mut [u8], links: &mut [u64]) -> Read
    ensures { outcome result (store nodes.new letters.new links.new) ≡ read_outcome (store nodes.old letters.old links.old) text.now }
{
    let mut used = NONE;
    match both_passes(text, nodes, letters, links, &mut used) {
        Ok(()) => Read {
            number: 0,
            counts: used,
        },
        Err(refusal) => {
            clear_all(nodes, letters, links);
            Read {
                number: refusal.number(),
                counts: NONE,
            }
        }
    }
}
