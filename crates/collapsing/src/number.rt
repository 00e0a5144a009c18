// Which number a group gives: 8 to 11 by its members, then 5 and 12 by the list with its events.
ghost use Rattle.std.specs.Prelude.{◌*◌, ◌≤◌, ◌≡◌, true, length};
ghost use Rattle.kit.specs.Refusal.{number_of};
ghost use Rattle.store.specs.Graph.{graph_of, nodes_of};
ghost use Rattle.formed.specs.WellFormed.{well_formed};
ghost use Rattle.sides.specs.Sides.{bare};
ghost use Rattle.affix.specs.Prefix.{handles_of};
ghost use Rattle.events.specs.Events.{rules_of, list_of, append_all};
ghost use Rattle.events.specs.WellFormed.{events_formed, keys_once};
ghost use Rattle.collapsing.specs.Making.{same_lefts, members_number, list_number};
ghost use Rattle.longer.specs.Ahead.{events_by};
ghost use Rattle.longer.specs.Longer.{Passed};
ghost use Rattle.collapsing.specs.Outcome.{lent, state_number};

use events::Used;
use handle::Handle;
use kit::Refusal;
use store::Counts;

// 13 of graph and events, then 5 of ids and keys.
pub fn state_number(
    nodes: &[u64],
    text: &[u8],
    links: &[u64],
    c: Counts,
    rules: &[u64],
    steps: &[u64],
    u: Used,
) -> Result<(), Refusal>
    ensures { number_of result ≡ state_number (lent nodes.now links.now rules.now steps.now) text.now c u }
{
    if !formed::well_formed(nodes, text, links, c) {
        return Err(Refusal::Malformed);
    }
    if !events::events_formed(rules, steps, u) {
        return Err(Refusal::Malformed);
    }
    if !formed::ids_once(nodes, c.nodes) {
        return Err(Refusal::Twice);
    }
    if !events::keys_once(rules, u.rules) {
        return Err(Refusal::Twice);
    }
    Ok(())
}

// Whether every member has the first one's set of live left neighbours.
fn same_lefts(nodes: &[u64], links: &[u64], c: Counts, members: &[u64]) -> bool
    requires { (4 * c.nodes ≤ length nodes.now) × (3 * c.links ≤ length links.now) × (1 ≤ length members.now) }
    ensures { result ≡ same_lefts (bare nodes.now links.now c) (handles_of members.now) }
{
    let first = Handle { packed: members[0] };
    for i in 1..members.len() {
        let other = Handle { packed: members[i] };
        if !sides::same_left(nodes, links, c, first, other) {
            return false;
        }
    }
    true
}

pub fn members_number(
    nodes: &[u64],
    text: &[u8],
    links: &[u64],
    c: Counts,
    members: &[u64],
    p: u64,
) -> Result<(), Refusal>
    requires { well_formed nodes.now text.now links.now c ≡ true }
    ensures { number_of result ≡ members_number p (graph_of nodes.now text.now links.now c) (handles_of members.now) }
{
    if members.len() < 2 {
        return Err(Refusal::Group);
    }
    if !affix::members_live(nodes, c.nodes, members) {
        return Err(Refusal::Group);
    }
    if !affix::members_once(members) {
        return Err(Refusal::Group);
    }
    if p == 0 {
        return Err(Refusal::Prefix);
    }
    if (affix::prefix_len(nodes, text, c, members) as u64) < p {
        return Err(Refusal::Prefix);
    }
    if !same_lefts(nodes, links, c, members) {
        return Err(Refusal::Neighbours);
    }
    let largest = store::largest_id(nodes, c.nodes);
    if Handle::MAX_ID - largest < longer::count_long(nodes, c.nodes, members, p) as u64 {
        return Err(Refusal::Ids);
    }
    Ok(())
}

// The members have passed 8 to 11.
pub fn list_number(
    nodes: &[u64],
    node_count: usize,
    rules: &[u64],
    steps: &[u64],
    u: Used,
    members: &[u64],
    p: u64,
) -> Result<(), Refusal>
    requires node_count_in_bounds { 4 * node_count ≤ length nodes.now }
    requires u_value { (events_formed rules.now steps.now u ≡ true) × (keys_once (rules_of u.rules rules.now) ≡ true) }
    requires passed { Passed p (nodes_of node_count nodes.now) (handles_of members.now) }
    ensures { number_of result ≡ list_number (append_all (list_of rules.now steps.now u) (events_by p (nodes_of node_count nodes.now) (handles_of members.now))) }
{
    let rule_count = u.rules;
    if !longer::keys_new(nodes, node_count, rules, rule_count, members, p) {
        return Err(Refusal::Twice);
    }
    if !events::in_order(rules, steps, u) {
        return Err(Refusal::Later);
    }
    if !longer::steps_new(nodes, node_count, rules, rule_count, members, p) {
        return Err(Refusal::Later);
    }
    Ok(())
}
