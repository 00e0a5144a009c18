// The links of a collapse: copied to where they are planned, and put back in their place.
ghost use Rattle.std.specs.Prelude.{◌+◌, ◌*◌, ◌≤◌, ◌≡◌, cond, [], ◌∷◌, ◌++◌, map, length, drop};
ghost use Rattle.kit.specs.Layout.{encode};
ghost use Rattle.handle.specs.Edge.{edge};
ghost use Rattle.store.specs.Graph.{link, link_layout, nodes_of, links_of};
ghost use Rattle.store.specs.Views.{live_link};
ghost use Rattle.merging.specs.Plan.{dim, remark};

use handle::Handle;
use store::Link;

// One link more, after the first `at`.
fn put_link(plan: &mut [u64], at: usize, from: Handle, to: Handle, mark: u64)
    requires { 3 * (at + 1) ≤ length plan.old }
    ensures { plan.new ≡ encode link_layout (links_of at plan.old ++ (link (edge from to) mark ∷ [])) ++ drop (3 * (at + 1)) plan.old }
{
    let l = Link { from, to, mark };
    l.put(plan, at);
}

fn dim_mark(nodes: &[u64], node_count: usize, l: Link) -> u64
    requires { 4 * node_count ≤ length nodes.now }
    ensures { result ≡ cond (live_link (nodes_of node_count nodes.now) l) 0 1 }
{
    if store::live_link(nodes, node_count, l) {
        return 0;
    }
    1
}

// A copy of the links, each marked where it is not live.
pub fn dim_links(nodes: &[u64], node_count: usize, links: &[u64], count: usize, plan: &mut [u64])
    requires { (4 * node_count ≤ length nodes.now) × (3 * count ≤ length links.now) × (3 * count ≤ length plan.old) }
    ensures { plan.new ≡ encode link_layout (map (dim (nodes_of node_count nodes.now)) (links_of count links.now)) ++ drop (3 * count) plan.old }
{
    for i in 0..count {
        let l = Link::at(links, i);
        let mark = dim_mark(nodes, node_count, l);
        put_link(plan, i, l.from, l.to, mark);
    }
}

// Links that were there get their new ends; their marks stay.
fn put_ends(plan: &[u64], links: &mut [u64], count: usize)
    requires { (3 * count ≤ length plan.now) × (3 * count ≤ length links.old) }
    ensures { links.new ≡ encode link_layout (remark (links_of count links.old) (links_of count plan.now)) ++ drop (3 * count) links.old }
{
    for i in 0..count {
        // Two numbers of the record: all of it would be read and written for them.
        links[3 * i] = plan[3 * i];
        links[3 * i + 1] = plan[3 * i + 1];
    }
}

// Links that were made are unmarked.
fn put_new(plan: &[u64], links: &mut [u64], start: usize, end: usize)
    requires { (start ≤ end) × (3 * end ≤ length plan.now) × (3 * end ≤ length links.old) }
    ensures { links.new ≡ encode link_layout (links_of start links.old ++ remark [] (drop start (links_of end plan.now))) ++ drop (3 * end) links.old }
{
    for i in start..end {
        let l = Link::at(plan, i);
        split::push_link(links, i, l.from, l.to);
    }
}

// The first `old` of the plan's `new` links were there.
pub fn put_back(plan: &[u64], links: &mut [u64], old: usize, new: usize)
    requires { (old ≤ new) × (3 * new ≤ length plan.now) × (3 * new ≤ length links.old) }
    ensures { links.new ≡ encode link_layout (remark (links_of old links.old) (links_of new plan.now)) ++ drop (3 * new) links.old }
{
    put_ends(plan, links, old);
    put_new(plan, links, old, new);
}
