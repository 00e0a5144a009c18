// Expansion of an event list into a table.
ghost use Rattle.std.specs.Prelude.{◌≡◌};
ghost use Rattle.walking.specs.Expand.{answered, outcome, expand_outcome};

use events::Used;
use kit::Refusal;

// C gets it, so 01's number stands in it.
#[repr(C)]
#[derive(Clone, Copy)]
pub struct Expanded {
    pub number: u64,
    pub used: Used,
}

// How much of the table is in use. The lengths of the expanded walks come first, so that a table without room is
// refused before anything is written.
#[tactic(auto, unfolding(crate::specs::Expand::expand_outcome))]
fn give(
    rules: &[u64],
    steps: &[u64],
    u: Used,
    out_rules: &mut [u64],
    out_steps: &mut [u64],
) -> Result<Used, Refusal>
    ensures { outcome (answered result) out_rules.new out_steps.new ≡ expand_outcome rules.now steps.now u out_rules.old out_steps.old }
{
    if !events::events_formed(rules, steps, u) {
        return Err(Refusal::Malformed);
    }
    let count = u.rules;
    if !events::keys_once(rules, count) {
        return Err(Refusal::Twice);
    }
    if !events::in_order(rules, steps, u) {
        return Err(Refusal::Later);
    }
    // No heap: the room is of fixed size.
    let mut lens: [u64; 65536] = [0; 65536];
    let total = expansion::measure(rules, steps, u, &mut lens) as usize;
    let used = Used {
        rules: count,
        steps: total,
    };
    if !events::room_for_rules(out_rules, out_steps, used) {
        return Err(Refusal::Room);
    }
    expansion::write_table(rules, steps, u, &lens, used, out_rules, out_steps);
    Ok(used)
}

pub fn expand(
    rules: &[u64],
    steps: &[u64],
    u: Used,
    out_rules: &mut [u64],
    out_steps: &mut [u64],
) -> Expanded
    ensures { outcome result out_rules.new out_steps.new ≡ expand_outcome rules.now steps.now u out_rules.old out_steps.old }
{
    match give(rules, steps, u, out_rules, out_steps) {
        Ok(used) => Expanded { number: 0, used },
        Err(why) => Expanded {
            number: why.number(),
            used: Used { rules: 0, steps: 0 },
        },
    }
}
