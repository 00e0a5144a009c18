// The events of a collapse and the list that they make longer. A member is a packed oriented node; `nodes` are those
// before the collapse, and p letters are shared.
#![tactic(auto)]

ghost use Rattle.std.specs.Prelude.{◌+◌, ◌*◌, ◌^◌, ◌≤◌, ◌<◌, ◌≡◌, cond, not, [], ◌∷◌, ◌++◌, ltb, length, drop};
ghost use Rattle.kit.specs.Loops.{any, count};
ghost use Rattle.handle.specs.Handle.{max_id, id_of};
ghost use Rattle.store.specs.Graph.{nodes_of};
ghost use Rattle.store.specs.Views.{node_named, largest};
ghost use Rattle.affix.specs.Prefix.{handles_of};
ghost use Rattle.events.specs.Events.{rule, rule_layout, step_layout, keyed, rules_of, steps_of, list_of, append, append_all, step_to};
ghost use Rattle.events.specs.WellFormed.{steps_later};
ghost use Rattle.merging.specs.Plan.{long_by, fresh_after};
ghost use Rattle.longer.specs.Ahead.{keys_new, steps_new, events_by};
ghost use Rattle.longer.specs.Longer.{fresh_one, event_one, facing, beginning, events_from, front, Holds, RoomFor};

use events::{Rule, Step, Used};
use handle::Handle;
use merging::parts;

// How many letters the member has.
fn len_of(nodes: &[u64], count: usize, m: Handle) -> u64
    requires { 4 * count ≤ length nodes.now }
    ensures { result ≡ (node_named (id_of m) (nodes_of count nodes.now)).len }
{
    store::node_len(nodes, count, m.id())
}

// How many members have more letters than p: so many fresh ids a collapse takes.
pub fn count_long(nodes: &[u64], node_count: usize, members: &[u64], p: u64) -> usize
    requires { 4 * node_count ≤ length nodes.now }
    ensures { result ≡ count (long_by p (nodes_of node_count nodes.now)) (handles_of members.now) }
{
    let mut n: u64 = 0;
    for i in 0..members.len() {
        let m = Handle { packed: members[i] };
        let len = len_of(nodes, node_count, m);
        n = parts::fresh_after(n, p < len);
    }
    n as usize
}

// A first member of p letters has no event: the place of the first that has one.
fn first_place(len: u64, p: u64) -> usize
    ensures { result ≡ cond (ltb p len) 0 1 }
{
    if p < len {
        return 0;
    }
    1
}

// Whether no rule has this key.
fn no_rule(rules: &[u64], count: usize, id: u64, len: u64) -> bool
    requires { 4 * count ≤ length rules.now }
    ensures { result ≡ not (any (keyed id len) (rules_of count rules.now)) }
{
    !events::find_rule(rules, count, id, len).is_some()
}

// 5: no event of the collapse has a key that stands in the list.
pub fn keys_new(
    nodes: &[u64],
    node_count: usize,
    rules: &[u64],
    rule_count: usize,
    members: &[u64],
    p: u64,
) -> bool
    requires { (4 * node_count ≤ length nodes.now) × (4 * rule_count ≤ length rules.now) × (1 ≤ length members.now) }
    ensures { result ≡ keys_new (rules_of rule_count rules.now) (events_by p (nodes_of node_count nodes.now) (handles_of members.now)) }
{
    let first = Handle { packed: members[0] };
    for i in first_place(len_of(nodes, node_count, first), p)..members.len() {
        let m = Handle { packed: members[i] };
        let len = len_of(nodes, node_count, m);
        if !no_rule(rules, rule_count, m.id(), len) {
            return false;
        }
    }
    true
}

// Where the events stand: the shared node, the next fresh id, the place of the next member.
#[derive(Clone, Copy)]
pub struct Run {
    pub x: Handle,
    pub fresh: u64,
    pub place: usize,
}

pub fn begin(nodes: &[u64], count: usize, first: Handle, p: u64) -> Run
    requires count_in_bounds { 4 * count ≤ length nodes.now }
    requires first_bound { fresh_after p (nodes_of count nodes.now) (largest (nodes_of count nodes.now) + 1) first ≤ max_id + 1 }
    ensures { result ≡ beginning p (nodes_of count nodes.now) first }
{
    let len = len_of(nodes, count, first);
    let fresh = store::largest_id(nodes, count) + 1;
    let x = parts::prefix_of(p < len, fresh, first);
    let place = first_place(len, p);
    Run { x, fresh, place }
}

// Whether no step of the member's event has a rule: a walk turned has the same ids and lengths.
fn event_new(
    rules: &[u64],
    count: usize,
    m: Handle,
    len: u64,
    p: u64,
    x: Handle,
    fresh: u64,
) -> bool
    requires { (4 * count ≤ length rules.now) × (fresh_one p len fresh ≤ max_id + 1) }
    ensures { result ≡ steps_later (rules_of count rules.now) (event_one p len x fresh m).walk }
{
    if !no_rule(rules, count, x.id(), p) {
        return false;
    }
    if len <= p {
        return true;
    }
    let rest = parts::suffix_of(fresh, m);
    no_rule(rules, count, rest.id(), len - p)
}

fn run_new(
    nodes: &[u64],
    node_count: usize,
    rules: &[u64],
    rule_count: usize,
    members: &[u64],
    p: u64,
    r: Run,
) -> bool
    requires node_count_in_bounds { (4 * node_count ≤ length nodes.now) × (4 * rule_count ≤ length rules.now) }
    requires members_bound { r.fresh + count (long_by p (nodes_of node_count nodes.now)) (drop r.place (handles_of members.now)) ≤ max_id + 1 }
    ensures { result ≡ steps_new (rules_of rule_count rules.now) (events_from p (nodes_of node_count nodes.now) r (handles_of members.now)) }
{
    let x = r.x;
    let mut fresh = r.fresh;
    for i in r.place..members.len() {
        let m = Handle { packed: members[i] };
        let len = len_of(nodes, node_count, m);
        if !event_new(rules, rule_count, m, len, p, x, fresh) {
            return false;
        }
        fresh = parts::fresh_after(fresh, p < len);
    }
    true
}

// 12: no step of the collapse's events has a rule in the list.
pub fn steps_new(
    nodes: &[u64],
    node_count: usize,
    rules: &[u64],
    rule_count: usize,
    members: &[u64],
    p: u64,
) -> bool
    requires node_count_in_bounds { (4 * node_count ≤ length nodes.now) × (4 * rule_count ≤ length rules.now) × (1 ≤ length members.now) }
    requires members_bound { largest (nodes_of node_count nodes.now) + count (long_by p (nodes_of node_count nodes.now)) (handles_of members.now) ≤ max_id }
    ensures { result ≡ steps_new (rules_of rule_count rules.now) (events_by p (nodes_of node_count nodes.now) (handles_of members.now)) }
{
    let first = Handle { packed: members[0] };
    let r = begin(nodes, node_count, first, p);
    run_new(nodes, node_count, rules, rule_count, members, p, r)
}

// One step more, at the end.
fn push_step(steps: &mut [u64], count: usize, node: Handle, len: u64)
    requires { 2 * (count + 1) ≤ length steps.old }
    ensures { steps.new ≡ front step_layout (steps_of count steps.old ++ (step_to node len ∷ [])) steps.old }
{
    let s = Step { node, len };
    s.put(steps, count);
}

fn push_two(steps: &mut [u64], count: usize, a: Handle, size: u64, b: Handle, rest: u64)
    requires { 2 * (count + 2) ≤ length steps.old }
    ensures { steps.new ≡ front step_layout (steps_of count steps.old ++ (step_to a size ∷ step_to b rest ∷ [])) steps.old }
{
    push_step(steps, count, a, size);
    push_step(steps, count + 1, b, rest);
}

// One rule more, at the end.
fn push_rule(rules: &mut [u64], count: usize, id: u64, len: u64, first: usize, steps: usize)
    requires { 4 * (count + 1) ≤ length rules.old }
    ensures { rules.new ≡ front rule_layout (rules_of count rules.old ++ (rule id len first steps ∷ [])) rules.old }
{
    let r = Rule {
        id,
        len,
        first: first as u64,
        steps: steps as u64,
    };
    r.put(rules, count);
}

// An oriented node as it stands in the walk of the member.
fn facing(m: Handle, h: Handle) -> Handle
    ensures { result ≡ facing m h }
{
    if m.direction() == Handle::FORWARD {
        return h;
    }
    h.flip()
}

// The walk of the member's event, at the end of the steps; how many steps it has.
fn push_walk(
    steps: &mut [u64],
    count: usize,
    m: Handle,
    len: u64,
    p: u64,
    x: Handle,
    fresh: u64,
) -> usize
    requires m_in_bounds { 2 * (count + length (event_one p len x fresh m).walk) ≤ length steps.old }
    requires fresh_bound { fresh_one p len fresh ≤ max_id + 1 }
    ensures value { result ≡ length (event_one p len x fresh m).walk }
    ensures steps_after { steps.new ≡ front step_layout (steps_of count steps.old ++ (event_one p len x fresh m).walk) steps.old }
{
    let shared = facing(m, x);
    if len <= p {
        push_step(steps, count, shared, p);
        return 1;
    }
    let other = facing(m, parts::suffix_of(fresh, m));
    if m.direction() == Handle::FORWARD {
        push_two(steps, count, shared, p, other, len - p);
        return 2;
    }
    push_two(steps, count, other, len - p, shared, p);
    2
}

// The member's event, at the end of the list: its key is the member's id and its length before.
fn append_event(
    rules: &mut [u64],
    steps: &mut [u64],
    u: Used,
    m: Handle,
    len: u64,
    p: u64,
    x: Handle,
    fresh: u64,
) -> Used
    requires room_for { RoomFor (append (list_of rules.old steps.old u) (event_one p len x fresh m)) rules.old steps.old }
    requires fresh_bound { fresh_one p len fresh ≤ max_id + 1 }
    ensures { Holds (append (list_of rules.old steps.old u) (event_one p len x fresh m)) rules.old steps.old rules.new steps.new result }
{
    let slot = u.rules;
    let first = u.steps;
    let more = push_walk(steps, first, m, len, p, x, fresh);
    push_rule(rules, slot, m.id(), len, first, more);
    Used {
        rules: slot + 1,
        steps: first + more,
    }
}

fn append_run(
    nodes: &[u64],
    node_count: usize,
    rules: &mut [u64],
    steps: &mut [u64],
    u: Used,
    members: &[u64],
    p: u64,
    r: Run,
) -> Used
    requires node_count_in_bounds { 4 * node_count ≤ length nodes.now }
    requires members_bound { r.fresh + count (long_by p (nodes_of node_count nodes.now)) (drop r.place (handles_of members.now)) ≤ max_id + 1 }
    requires room_for { RoomFor (append_all (list_of rules.old steps.old u) (events_from p (nodes_of node_count nodes.now) r (handles_of members.now))) rules.old steps.old }
    ensures { Holds (append_all (list_of rules.old steps.old u) (events_from p (nodes_of node_count nodes.now) r (handles_of members.now))) rules.old steps.old rules.new steps.new result }
{
    let x = r.x;
    let mut fresh = r.fresh;
    let mut used = u;
    for i in r.place..members.len() {
        let m = Handle { packed: members[i] };
        let len = len_of(nodes, node_count, m);
        used = append_event(rules, steps, used, m, len, p, x, fresh);
        fresh = parts::fresh_after(fresh, p < len);
    }
    used
}

// The events of the collapse, at the end of the list handed in.
pub fn append_events(
    nodes: &[u64],
    node_count: usize,
    rules: &mut [u64],
    steps: &mut [u64],
    u: Used,
    members: &[u64],
    p: u64,
) -> Used
    requires node_count_in_bounds { (4 * node_count ≤ length nodes.now) × (1 ≤ length members.now) }
    requires members_bound { largest (nodes_of node_count nodes.now) + count (long_by p (nodes_of node_count nodes.now)) (handles_of members.now) ≤ max_id }
    requires room_for { RoomFor (append_all (list_of rules.old steps.old u) (events_by p (nodes_of node_count nodes.now) (handles_of members.now))) rules.old steps.old }
    ensures { Holds (append_all (list_of rules.old steps.old u) (events_by p (nodes_of node_count nodes.now) (handles_of members.now))) rules.old steps.old rules.new steps.new result }
{
    let first = Handle { packed: members[0] };
    let r = begin(nodes, node_count, first, p);
    append_run(nodes, node_count, rules, steps, u, members, p, r)
}

// How many events there are: one for each member, but for a first one of p letters.
pub fn count_events(nodes: &[u64], node_count: usize, members: &[u64], p: u64) -> usize
    requires { (4 * node_count ≤ length nodes.now) × (1 ≤ length members.now) }
    ensures { result ≡ length (events_by p (nodes_of node_count nodes.now) (handles_of members.now)) }
{
    let first = Handle { packed: members[0] };
    let len = len_of(nodes, node_count, first);
    members.len() - first_place(len, p)
}
