// Every number that a collapse can give before its links are made.
ghost use Rattle.std.specs.Prelude.{◌≡◌, true};
ghost use Rattle.kit.specs.Refusal.{number_of};
ghost use Rattle.store.specs.Graph.{nodes_of};
ghost use Rattle.formed.specs.WellFormed.{well_formed, ids_once};
ghost use Rattle.affix.specs.Prefix.{handles_of};
ghost use Rattle.events.specs.Events.{rules_of};
ghost use Rattle.events.specs.WellFormed.{events_formed, keys_once};
ghost use Rattle.collapsing.specs.Outcome.{lent, room_of, state_in};
ghost use Rattle.collapsing.specs.Ready.{ready_number};

use crate::{number, room};
use events::Used;
use kit::Refusal;
use store::Counts;

pub fn ready_number(
    nodes: &[u64],
    text: &[u8],
    links: &[u64],
    c: Counts,
    rules: &[u64],
    steps: &[u64],
    u: Used,
    members: &[u64],
    p: u64,
) -> Result<(), Refusal>
    requires c_value { (well_formed nodes.now text.now links.now c ≡ true) × (ids_once (nodes_of c.nodes nodes.now) ≡ true) }
    requires u_value { (events_formed rules.now steps.now u ≡ true) × (keys_once (rules_of u.rules rules.now) ≡ true) }
    ensures { number_of result ≡ ready_number (room_of (lent nodes.now links.now rules.now steps.now)) p (state_in (lent nodes.now links.now rules.now steps.now) text.now c u) (handles_of members.now) }
{
    number::members_number(nodes, text, links, c, members, p)?;
    number::list_number(nodes, c.nodes, rules, steps, u, members, p)?;
    let long = longer::count_long(nodes, c.nodes, members, p);
    let more = longer::count_events(nodes, c.nodes, members, p);
    if !room::lists_fit(nodes.len(), rules.len(), steps.len(), c, u, long, more) {
        return Err(Refusal::Room);
    }
    Ok(())
}
