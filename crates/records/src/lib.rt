// Table steps as a lent slice of records: 01's second list of forms.
#![tactic(auto)]

pub mod check_steps;

ghost use Rattle.std.specs.Prelude.{◌*◌, ◌≤◌, ◌<◌, ◌≡◌, [], eqb, length};
ghost use Rattle.store.specs.Graph.{graph_of};
ghost use Rattle.records.specs.Records.{record_of, in_range, fields_fault, record_fault};

use handle::Handle;
use store::Counts;

// A step of a table as a record of its own.
#[repr(C)]
#[derive(Clone, Copy)]
pub struct Step {
    pub id: u64,
    pub direction: u64,
    pub length: u64,
}

fn in_range(id: u64, direction: u64) -> bool
    ensures { result ≡ in_range (record_of id direction 0) }
{
    if id < 1 {
        return false;
    }
    if Handle::MAX_ID < id {
        return false;
    }
    direction <= Handle::REVERSE
}

// The work, on the fields of the step and of the one before it: 13, else the flat step check's number.
// Where there is no step before, `before` is `at`.
fn flat_fault(
    nodes: &[u64],
    links: &[u64],
    d: Counts,
    before: usize,
    before_id: u64,
    before_direction: u64,
    before_len: u64,
    at: usize,
    id: u64,
    direction: u64,
    len: u64,
) -> u64
    requires { (4 * d.nodes ≤ length nodes.now) × (3 * d.links ≤ length links.now) }
    ensures { result ≡ fields_fault (graph_of nodes.now [] links.now d) (eqb before at) (record_of before_id before_direction before_len) (record_of id direction len) }
{
    if !in_range(before_id, before_direction) {
        return 13;
    }
    if !in_range(id, direction) {
        return 13;
    }
    let last = Handle::pack(before_id, before_direction);
    let node = Handle::pack(id, direction);
    let flat = [last.packed, before_len, node.packed, len];
    if before == at {
        return scanning::step_fault(nodes, links, d, &flat, 1, 0);
    }
    scanning::step_fault(nodes, links, d, &flat, 1, 1)
}

// The thin check: the fields of two records are copied and handed on.
pub fn step_fault(
    nodes: &[u64],
    links: &[u64],
    d: Counts,
    steps: &[Step],
    before: usize,
    at: usize,
) -> u64
    requires { (4 * d.nodes ≤ length nodes.now) × (3 * d.links ≤ length links.now) × (before < length steps.now) × (at < length steps.now) }
    ensures { result ≡ record_fault (graph_of nodes.now [] links.now d) steps.now before at }
{
    let b = steps[before];
    let s = steps[at];
    flat_fault(
        nodes,
        links,
        d,
        before,
        b.id,
        b.direction,
        b.length,
        at,
        s.id,
        s.direction,
        s.length,
    )
}
