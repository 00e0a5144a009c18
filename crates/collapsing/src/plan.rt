// The links of a collapse, made in room of the code's own: whether they fit is known only when all are made.
ghost use Rattle.std.specs.Prelude.{◌*◌, ◌≤◌, map, length};
ghost use Rattle.store.specs.Graph.{nodes_of, links_of};
ghost use Rattle.affix.specs.Prefix.{handles_of};
ghost use Rattle.merging.specs.Plan.{dim, planned};
ghost use Rattle.linking.specs.Fit.{Plans};
ghost use Rattle.collapsing.specs.Put.{Planned};

use store::Counts;

pub fn plan(
    nodes: &[u64],
    links: &[u64],
    c: Counts,
    members: &[u64],
    p: u64,
    room: &mut [u64],
) -> Option<usize>
    requires nodes_in_bounds { (4 * c.nodes ≤ length nodes.now) × (3 * c.links ≤ length links.now) × (3 * c.links ≤ length room.old) }
    requires plans { Plans p (nodes_of c.nodes nodes.now) (map (dim (nodes_of c.nodes nodes.now)) (links_of c.links links.now)) (handles_of members.now) }
    ensures { Planned room.old (planned p (nodes_of c.nodes nodes.now) (map (dim (nodes_of c.nodes nodes.now)) (links_of c.links links.now)) (handles_of members.now)) result room.new }
{
    merging::copies::dim_links(nodes, c.nodes, links, c.links, room);
    linking::plan_links(nodes, c.nodes, room, c.links, members, p)
}
