// The driver: collapses group after group until none is left that it must collapse.
ghost use Rattle.std.specs.Prelude.{◌≡◌};
ghost use Rattle.kit.specs.Refusal.{number_of};
ghost use Rattle.collapsing.specs.Outcome.{lent};
ghost use Rattle.driver.specs.Outcome.{outcome};
ghost use Rattle.folding.specs.CollapseAll.{driver_number, collapse_all_outcome};

use driver::Driven;
use events::Used;
use kit::Refusal;
use store::Counts;

// 13 and 5 of graph and events, 5 and 6 of the protected ids, 12 of the events, then 7.
fn driver_number(
    nodes: &[u64],
    text: &[u8],
    links: &[u64],
    c: Counts,
    rules: &[u64],
    steps: &[u64],
    u: Used,
    protected: &[u64],
) -> Result<(), Refusal>
    ensures { number_of result ≡ driver_number (lent nodes.now links.now rules.now steps.now) text.now c u protected.now }
{
    collapsing::number::state_number(nodes, text, links, c, rules, steps, u)?;
    if !protected::ids_apart(protected) {
        return Err(Refusal::Twice);
    }
    if !protected::ids_stored(nodes, c.nodes, protected) {
        return Err(Refusal::Absent);
    }
    if !events::in_order(rules, steps, u) {
        return Err(Refusal::Later);
    }
    if 4096 < protected.len() {
        return Err(Refusal::Room);
    }
    Ok(())
}

// A refused collapse ends it, and what was made before stays.
#[tactic(auto, unfolding(crate::specs::CollapseAll::collapse_all_outcome))]
pub fn collapse_all(
    nodes: &mut [u64],
    text: &[u8],
    links: &mut [u64],
    c: Counts,
    rules: &mut [u64],
    steps: &mut [u64],
    u: Used,
    protected: &[u64],
) -> Driven
    ensures { outcome result (lent nodes.new links.new rules.new steps.new) ≡ collapse_all_outcome (lent nodes.old links.old rules.old steps.old) text.now c u protected.now }
{
    if let Err(why) = driver_number(nodes, text, links, c, rules, steps, u, protected) {
        return driver::refuse(why.number(), c, u);
    }
    driver::drive::drive(nodes, text, links, c, rules, steps, u, protected)
}
