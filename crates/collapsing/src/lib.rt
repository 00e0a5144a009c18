// A collapse of a group, in the arrays that hold graph and events.
#![tactic(auto)]

mod make;
pub mod number;
mod plan;
mod ready;
mod room;

ghost use Rattle.std.specs.Prelude.{◌+◌, ◌*◌, ◌≤◌, ◌≡◌, true, cond, map, leb, length};
ghost use Rattle.kit.specs.Loops.{count};
ghost use Rattle.kit.specs.Refusal.{number};
ghost use Rattle.store.specs.Graph.{nodes_of, links_of};
ghost use Rattle.formed.specs.WellFormed.{well_formed, ids_once};
ghost use Rattle.affix.specs.Prefix.{handles_of};
ghost use Rattle.events.specs.Events.{rules_of, list_of, append_all};
ghost use Rattle.events.specs.WellFormed.{events_formed, keys_once};
ghost use Rattle.merging.specs.Plan.{dim, long_by, planned};
ghost use Rattle.linking.specs.Fit.{Plans};
ghost use Rattle.longer.specs.Ahead.{events_by};
ghost use Rattle.longer.specs.Longer.{RoomFor, beginning};
ghost use Rattle.collapsing.specs.Put.{Storable, state_by, link_room};
ghost use Rattle.collapsing.specs.Ready.{ready_number};
ghost use Rattle.collapsing.specs.Outcome.{outcome, refused, made, lent, first_of, room_of, state_in, group_outcome};

use events::Used;
use kit::Refusal;
use store::Counts;

// 01's number, the shared node, and what is in use after it. C gets it.
#[repr(C)]
#[derive(Clone, Copy)]
pub struct Collapsed {
    pub number: u64,
    pub shared: u64,
    pub counts: Counts,
    pub used: Used,
}

// A refusal gives back the counts.
pub fn refuse(number: u64, c: Counts, u: Used) -> Collapsed
    ensures { result ≡ record { number = number; shared = 0; counts = c; used = u } }
{
    Collapsed {
        number,
        shared: 0,
        counts: c,
        used: u,
    }
}

// How many numbers of the plan may be used: as many as the links have, up to 01's limit.
fn link_room(len: usize) -> usize
    ensures { result ≡ link_room len }
{
    if len < 393216 {
        return len;
    }
    393216
}

// The links are planned in `room`; where they do not fit it, nothing is stored.
fn collapse_in(
    nodes: &mut [u64],
    links: &mut [u64],
    c: Counts,
    rules: &mut [u64],
    steps: &mut [u64],
    u: Used,
    members: &[u64],
    p: u64,
    room: &mut [u64],
) -> Collapsed
    requires members_in_bounds { (4 * (c.nodes + count (long_by p (nodes_of c.nodes nodes.old)) (handles_of members.now)) ≤ length nodes.old) × (3 * c.links ≤ length room.old) × (length room.old ≤ length links.old) }
    requires plans { Plans p (nodes_of c.nodes nodes.old) (map (dim (nodes_of c.nodes nodes.old)) (links_of c.links links.old)) (handles_of members.now) }
    requires storable { Storable p (nodes_of c.nodes nodes.old) (handles_of members.now) }
    requires room_for { RoomFor (append_all (list_of rules.old steps.old u) (events_by p (nodes_of c.nodes nodes.old) (handles_of members.now))) rules.old steps.old }
    ensures { outcome result (lent nodes.new links.new rules.new steps.new) ≡ cond (leb (3 * length (planned p (nodes_of c.nodes nodes.old) (map (dim (nodes_of c.nodes nodes.old)) (links_of c.links links.old)) (handles_of members.now))) (length room.old)) (made (beginning p (nodes_of c.nodes nodes.old) (first_of (handles_of members.now))).x (state_by p (nodes_of c.nodes nodes.old) (links_of c.links links.old) (list_of rules.old steps.old u) (planned p (nodes_of c.nodes nodes.old) (map (dim (nodes_of c.nodes nodes.old)) (links_of c.links links.old)) (handles_of members.now)) (handles_of members.now)) c (lent nodes.old links.old rules.old steps.old)) (refused 7 c u (lent nodes.old links.old rules.old steps.old)) }
{
    let Some(n) = plan::plan(nodes, links, c, members, p, room) else {
        return refuse(Refusal::Room.number(), c, u);
    };
    make::make(nodes, links, c, rules, steps, u, members, p, room, n)
}

// Nothing but the room for links can refuse it any more.
fn collapse_ready(
    nodes: &mut [u64],
    text: &[u8],
    links: &mut [u64],
    c: Counts,
    rules: &mut [u64],
    steps: &mut [u64],
    u: Used,
    members: &[u64],
    p: u64,
    room: &mut [u64],
) -> Collapsed
    requires c_value { (well_formed nodes.old text.now links.old c ≡ true) × (ids_once (nodes_of c.nodes nodes.old) ≡ true) × (393216 ≤ length room.old) }
    requires members_value { ready_number (room_of (lent nodes.old links.old rules.old steps.old)) p (state_in (lent nodes.old links.old rules.old steps.old) text.now c u) (handles_of members.now) ≡ 0 }
    ensures { outcome result (lent nodes.new links.new rules.new steps.new) ≡ group_outcome (lent nodes.old links.old rules.old steps.old) text.now c u (handles_of members.now) p }
{
    let n = link_room(links.len());
    collapse_in(nodes, links, c, rules, steps, u, members, p, &mut room[..n])
}

// What stands in the arrays is well formed, and each id and key is given once.
pub fn collapse_group(
    nodes: &mut [u64],
    text: &[u8],
    links: &mut [u64],
    c: Counts,
    rules: &mut [u64],
    steps: &mut [u64],
    u: Used,
    members: &[u64],
    p: u64,
) -> Collapsed
    requires c_value { (well_formed nodes.old text.now links.old c ≡ true) × (ids_once (nodes_of c.nodes nodes.old) ≡ true) }
    requires u_value { (events_formed rules.old steps.old u ≡ true) × (keys_once (rules_of u.rules rules.old) ≡ true) }
    ensures { outcome result (lent nodes.new links.new rules.new steps.new) ≡ group_outcome (lent nodes.old links.old rules.old steps.old) text.now c u (handles_of members.now) p }
{
    if let Err(why) = ready::ready_number(nodes, text, links, c, rules, steps, u, members, p) {
        return refuse(why.number(), c, u);
    }
    // No heap: the room is of fixed size.
    let mut room = [0u64; 393216];
    collapse_ready(
        nodes, text, links, c, rules, steps, u, members, p, &mut room,
    )
}
