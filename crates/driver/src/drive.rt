// The driver's loop. Who calls it has tested graph and events.
ghost use Rattle.std.specs.Prelude.{◌≤◌, ◌≡◌, true, length};
ghost use Rattle.store.specs.Graph.{nodes_of};
ghost use Rattle.formed.specs.WellFormed.{well_formed, ids_once};
ghost use Rattle.affix.specs.Prefix.{handles_of};
ghost use Rattle.events.specs.Events.{rules_of};
ghost use Rattle.events.specs.WellFormed.{events_formed, keys_once};
ghost use Rattle.collapsing.specs.Outcome.{lent, room_of, state_in};
ghost use Rattle.driver.specs.Drive.{drive_for};
ghost use Rattle.driver.specs.Turn.{group_run};
ghost use Rattle.driver.specs.Outcome.{outcome, holding_run, drive_outcome};

use crate::Driven;
use events::Used;
use store::Counts;

// Collapses a group at full prefix length.
fn collapse_whole(
    nodes: &mut [u64],
    text: &[u8],
    links: &mut [u64],
    c: Counts,
    rules: &mut [u64],
    steps: &mut [u64],
    u: Used,
    members: &[u64],
) -> Driven
    requires c_value { (well_formed nodes.old text.now links.old c ≡ true) × (ids_once (nodes_of c.nodes nodes.old) ≡ true) }
    requires u_value { (events_formed rules.old steps.old u ≡ true) × (keys_once (rules_of u.rules rules.old) ≡ true) }
    requires in_bounds { 1 ≤ length members.now }
    ensures { outcome result (lent nodes.new links.new rules.new steps.new) ≡ holding_run (group_run (room_of (lent nodes.old links.old rules.old steps.old)) (state_in (lent nodes.old links.old rules.old steps.old) text.now c u) (handles_of members.now)) c (lent nodes.old links.old rules.old steps.old) }
{
    let p = affix::prefix_len(nodes, text, c, members) as u64;
    let k = collapsing::collapse_group(nodes, text, links, c, rules, steps, u, members, p);
    if k.number != 0 {
        return crate::refuse(k.number, c, u);
    }
    let counts = k.counts;
    let used = k.used;
    Driven {
        number: 0,
        made: 1,
        counts,
        used,
    }
}

// One turn: the next group, if there is one, collapsed. `made` is 1 where it was.
fn turn(
    nodes: &mut [u64],
    text: &[u8],
    links: &mut [u64],
    c: Counts,
    rules: &mut [u64],
    steps: &mut [u64],
    u: Used,
    protected: &[u64],
    members: &mut [u64],
) -> Driven
    requires c_value { (well_formed nodes.old text.now links.old c ≡ true) × (ids_once (nodes_of c.nodes nodes.old) ≡ true) }
    requires u_value { (events_formed rules.old steps.old u ≡ true) × (keys_once (rules_of u.rules rules.old) ≡ true) }
    requires nodes_in_bounds { c.nodes ≤ length members.old }
    ensures { outcome result (lent nodes.new links.new rules.new steps.new) ≡ holding_run (drive_for 1 (room_of (lent nodes.old links.old rules.old steps.old)) protected.now 0 (state_in (lent nodes.old links.old rules.old steps.old) text.now c u)) c (lent nodes.old links.old rules.old steps.old) }
{
    let Some(n) = choosing::next_group(nodes, text, links, c, protected, members) else {
        return crate::refuse(0, c, u);
    };
    collapse_whole(nodes, text, links, c, rules, steps, u, &members[..n])
}

// Turn after turn, until one makes no collapse.
fn drive_in(
    nodes: &mut [u64],
    text: &[u8],
    links: &mut [u64],
    c: Counts,
    rules: &mut [u64],
    steps: &mut [u64],
    u: Used,
    protected: &[u64],
    members: &mut [u64],
) -> Driven
    requires c_value { (well_formed nodes.old text.now links.old c ≡ true) × (ids_once (nodes_of c.nodes nodes.old) ≡ true) }
    requires u_value { (events_formed rules.old steps.old u ≡ true) × (keys_once (rules_of u.rules rules.old) ≡ true) }
    requires in_bounds { 65536 ≤ length members.old }
    ensures { outcome result (lent nodes.new links.new rules.new steps.new) ≡ drive_outcome (lent nodes.old links.old rules.old steps.old) text.now c u protected.now }
{
    let mut counts = c;
    let mut used = u;
    let mut made: u64 = 0;
    loop {
        let t = turn(
            nodes, text, links, counts, rules, steps, used, protected, members,
        );
        counts = t.counts;
        used = t.used;
        if t.made == 0 {
            return Driven {
                number: t.number,
                made,
                counts,
                used,
            };
        }
        made += 1;
    }
}

// What stands in the arrays is well formed, and each id and key is given once.
pub fn drive(
    nodes: &mut [u64],
    text: &[u8],
    links: &mut [u64],
    c: Counts,
    rules: &mut [u64],
    steps: &mut [u64],
    u: Used,
    protected: &[u64],
) -> Driven
    requires c_value { (well_formed nodes.old text.now links.old c ≡ true) × (ids_once (nodes_of c.nodes nodes.old) ≡ true) }
    requires u_value { (events_formed rules.old steps.old u ≡ true) × (keys_once (rules_of u.rules rules.old) ≡ true) }
    ensures { outcome result (lent nodes.new links.new rules.new steps.new) ≡ drive_outcome (lent nodes.old links.old rules.old steps.old) text.now c u protected.now }
{
    // No heap: the room is of fixed size.
    let mut members = [0u64; 65536];
    drive_in(
        nodes,
        text,
        links,
        c,
        rules,
        steps,
        u,
        protected,
        &mut members,
    )
}
