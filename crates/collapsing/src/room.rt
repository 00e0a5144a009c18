// 7, but for the links: how many nodes, rules and steps a collapse takes is known from its members.
ghost use Rattle.std.specs.Prelude.{◌+◌, ◌*◌, ◌^◌, ◌≤◌, ◌<◌, ◌≡◌, ◌&&◌};
ghost use Rattle.collapsing.specs.Making.{fits};

use events::Used;
use store::Counts;

// Whether so many records more stay inside a limit and an array of this length.
fn fit(stride: usize, limit: usize, used: usize, more: usize, len: usize) -> bool
    requires { (used ≤ limit) × (stride * limit < 2 ^ 64) }
    ensures { result ≡ fits stride limit (used + more) len }
{
    if limit - used < more {
        return false;
    }
    stride * (used + more) <= len
}

// The lengths are those of the arrays of nodes, rules and steps; `long` members are split, and there are `more` events.
pub fn lists_fit(
    nodes: usize,
    rules: usize,
    steps: usize,
    c: Counts,
    u: Used,
    long: usize,
    more: usize,
) -> bool
    requires { (c.nodes ≤ 65536) × (u.rules ≤ 65536) × (u.steps ≤ 262144) }
    ensures { result ≡ (fits 4 65536 (c.nodes + long) nodes && (fits 4 65536 (u.rules + more) rules && fits 2 262144 (u.steps + (long + more)) steps)) }
{
    if !fit(4, 65536, c.nodes, long, nodes) {
        return false;
    }
    if !fit(4, 65536, u.rules, more, rules) {
        return false;
    }
    fit(2, 262144, u.steps, long + more, steps)
}
