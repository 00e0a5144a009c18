// A collapse is stored: nothing can be refused any more.
ghost use Rattle.std.specs.Prelude.{◌+◌, ◌*◌, ◌≤◌, ◌≡◌, length};
ghost use Rattle.kit.specs.Loops.{count};
ghost use Rattle.store.specs.Graph.{nodes_of, links_of};
ghost use Rattle.store.specs.Views.{largest};
ghost use Rattle.affix.specs.Prefix.{handles_of};
ghost use Rattle.events.specs.Events.{list_of, append_all};
ghost use Rattle.merging.specs.Plan.{long_by};
ghost use Rattle.longer.specs.Ahead.{events_by};
ghost use Rattle.longer.specs.Longer.{RoomFor, beginning};
ghost use Rattle.collapsing.specs.Put.{Storable, state_by};
ghost use Rattle.collapsing.specs.Outcome.{outcome, made, lent, first_of};

use crate::Collapsed;
use events::Used;
use handle::Handle;
use merging::{copies, nodes};
use store::Counts;

// `plan` holds the n links that there are after it.
pub fn make(
    nodes: &mut [u64],
    links: &mut [u64],
    c: Counts,
    rules: &mut [u64],
    steps: &mut [u64],
    u: Used,
    members: &[u64],
    p: u64,
    plan: &[u64],
    n: usize,
) -> Collapsed
    requires members_in_bounds { (4 * (c.nodes + count (long_by p (nodes_of c.nodes nodes.old)) (handles_of members.now)) ≤ length nodes.old) × (c.links ≤ n) × (3 * n ≤ length links.old) × (3 * n ≤ length plan.now) }
    requires storable { Storable p (nodes_of c.nodes nodes.old) (handles_of members.now) }
    requires room_for { RoomFor (append_all (list_of rules.old steps.old u) (events_by p (nodes_of c.nodes nodes.old) (handles_of members.now))) rules.old steps.old }
    ensures { outcome result (lent nodes.new links.new rules.new steps.new) ≡ made (beginning p (nodes_of c.nodes nodes.old) (first_of (handles_of members.now))).x (state_by p (nodes_of c.nodes nodes.old) (links_of c.links links.old) (list_of rules.old steps.old u) (links_of n plan.now) (handles_of members.now)) c (lent nodes.old links.old rules.old steps.old) }
{
    let node_count = c.nodes;
    let link_count = c.links;
    let letters = c.letters;
    let first = Handle { packed: members[0] };
    let run = longer::begin(nodes, node_count, first, p);
    let x = run.x;
    let used = longer::append_events(nodes, node_count, rules, steps, u, members, p);
    let count = nodes::merge_nodes(nodes, node_count, members, p);
    copies::put_back(plan, links, link_count, n);
    Collapsed {
        number: 0,
        shared: x.packed,
        counts: Counts {
            nodes: count,
            letters,
            links: n,
        },
        used,
    }
}
