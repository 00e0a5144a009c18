// Expansion of an event list into a table. The table is filled from its last rule back, so that the walk of a rule that a
// lookup finds is expanded already: however long a chain of events is, expand_node and expand_walk nest twice at most.
#![tactic(auto)]

ghost use Rattle.std.specs.Prelude.{◌+◌, ◌-◌, ◌*◌, ◌≤◌, ◌<◌, ◌≡◌, true, cond, length, take, drop, get_or};
ghost use Rattle.std.proofs.lemmas.List.Edits.{sets};
ghost use Rattle.kit.specs.Layout.{encode};
ghost use Rattle.kit.specs.Loops.{find_from, sum};
ghost use Rattle.handle.specs.Handle.{flip};
ghost use Rattle.events.specs.Events.{rule, pack_rule, pack_step, rule_layout, step_layout, rules_of, list_of, keyed, step_to, walks_of};
ghost use Rattle.events.specs.WellFormed.{table_formed};
ghost use Rattle.expansion.specs.Table.{rules_by, capped, size_at, events_in};
ghost use Rattle.expansion.specs.Building.{Known, Measured, Fillable, Buildable, TableIn};
ghost use Rattle.expansion.specs.Expansion.{expanded};
ghost use Rattle.expansion.specs.Filling.{toward, part_of, event_walk, node_in, walk_in, Ready, Written};

use events::{Rule, Step, Used};
use handle::Handle;

// Which of a walk's n steps comes k-th, where it is turned counted from its end.
fn nth(n: usize, k: usize, forward: bool) -> usize
    requires { k < n }
    ensures { result ≡ cond forward k (n - 1 - k) }
{
    if forward {
        return k;
    }
    n - 1 - k
}

fn turned(node: Handle, forward: bool) -> Handle
    ensures { result ≡ cond forward node (flip node) }
{
    if forward {
        return node;
    }
    node.flip()
}

// Writes what a node expands to by the table's rules from `ahead` on, from step `at` on; the step after it.
#[cycle(expand_node_expand_walk)]
fn expand_node(
    rules: &[u64],
    c: Used,
    ahead: usize,
    steps: &mut [u64],
    node: Handle,
    len: u64,
    at: usize,
) -> usize
    requires { Ready rules.now steps.old c ahead at (node_in rules.now steps.old c ahead (step_to node len)) }
    ensures { Written steps.old at (node_in rules.now steps.old c ahead (step_to node len)) steps.new result }
{
    let Some(j) = events::next_rule(rules, c.rules, ahead, node.id(), len) else {
        let s = Step { node, len };
        s.put(steps, at);
        return at + 1;
    };
    let forward = node.direction() == Handle::FORWARD;
    let r = Rule::at(rules, j);
    expand_walk(
        rules,
        c,
        j + 1,
        steps,
        r.first as usize,
        r.steps as usize,
        forward,
        at,
    )
}

// The same of a walk of the table, each of its nodes in turn.
#[cycle(expand_node_expand_walk)]
fn expand_walk(
    rules: &[u64],
    c: Used,
    ahead: usize,
    steps: &mut [u64],
    first: usize,
    n: usize,
    forward: bool,
    at: usize,
) -> usize
    requires { Ready rules.now steps.old c ahead at (walk_in rules.now steps.old c ahead (toward forward (part_of steps.old c first n)))
        × (at + length (walk_in rules.now steps.old c ahead (toward forward (part_of steps.old c first n))) ≤ first)
        × (first + n ≤ c.steps) }
    ensures { Written steps.old at (walk_in rules.now steps.old c ahead (toward forward (part_of steps.old c first n))) steps.new result }
{
    let mut next = at;
    for k in 0..n {
        let s = Step::at(steps, first + nth(n, k, forward));
        next = expand_node(rules, c, ahead, steps, turned(s.node, forward), s.len, next);
    }
    next
}

// Lengths are counted up to one past the limit of steps, so that no sum of them can overflow.
fn capped(n: u64) -> u64
    ensures { result ≡ capped n }
{
    if n < 262145 {
        return n;
    }
    262145
}

// How long a node's expansion is by the rules from `ahead` on, whose lengths stand in lens.
fn node_len(rules: &[u64], count: usize, lens: &[u64], ahead: usize, id: u64, len: u64) -> u64
    requires { (4 * count ≤ length rules.now) × (count ≤ length lens.now) }
    ensures { result ≡ size_at lens.now (find_from (keyed id len) ahead (drop ahead (rules_of count rules.now))) }
{
    let Some(j) = events::next_rule(rules, count, ahead, id, len) else {
        return 1;
    };
    lens[j]
}

// The same of a walk of the list.
fn walk_len(
    rules: &[u64],
    steps: &[u64],
    c: Used,
    lens: &[u64],
    ahead: usize,
    first: usize,
    n: usize,
) -> u64
    requires { Known rules.now steps.now c lens.now ahead × (first + n ≤ c.steps) }
    ensures { result ≡ capped (length (walk_in rules.now steps.now c ahead (part_of steps.now c first n))) }
{
    let mut total: u64 = 0;
    for k in 0..n {
        let p = first + k;
        let s = Step::at(steps, p);
        total = capped(total + node_len(rules, c.rules, lens, ahead, s.node.id(), s.len));
    }
    total
}

// How long each event's expansion is, from the last event back, and all of them together.
pub fn measure(rules: &[u64], steps: &[u64], c: Used, lens: &mut [u64]) -> u64
    requires { (table_formed rules.now steps.now c ≡ true) × (c.rules ≤ length lens.old) }
    ensures { Measured rules.now steps.now c lens.new result }
{
    let mut total: u64 = 0;
    for i in (0..c.rules).rev() {
        let r = Rule::at(rules, i);
        let m = walk_len(
            rules,
            steps,
            c,
            lens,
            i + 1,
            r.first as usize,
            r.steps as usize,
        );
        lens[i] = m;
        total = capped(total + m);
    }
    total
}

// The table's rules: the events' keys in their order, their walks one after another.
fn write_rules(rules: &[u64], count: usize, lens: &[u64], out: &mut [u64])
    requires { (4 * count ≤ length rules.now) × (count ≤ length lens.now) × (4 * count ≤ length out.old) × (sum (λ n. n) (take count lens.now) ≤ 262144) }
    ensures { out.new ≡ sets out.old 0 (encode rule_layout (rules_by 0 (rules_of count rules.now) (take count lens.now))) }
{
    let mut first: u64 = 0;
    for i in 0..count {
        let n = lens[i];
        let r = Rule {
            first,
            steps: n,
            ..Rule::at(rules, i)
        };
        r.put(out, i);
        first += n;
    }
}

// Event i's walk, expanded by the table's rules after it, into its place in the table.
fn expand_event(rules: &[u64], steps: &[u64], table: &[u64], d: Used, out: &mut [u64], i: usize)
    requires { (4 * i + 4 ≤ length rules.now) × (4 * i + 4 ≤ length table.now)
        × (2 * (get_or rules.now (4 * i + 2) 0 + get_or rules.now (4 * i + 3) 0) ≤ length steps.now)
        × Ready table.now out.old d (i + 1) (get_or table.now (4 * i + 2) 0) (walk_in table.now out.old d (i + 1) (event_walk rules.now steps.now i)) }
    ensures { out.new ≡ sets out.old (2 * get_or table.now (4 * i + 2) 0) (encode step_layout (walk_in table.now out.old d (i + 1) (event_walk rules.now steps.now i))) }
{
    let r = Rule::at(rules, i);
    let first = r.first as usize;
    let n = r.steps as usize;
    let mut next = Rule::at(table, i).first as usize;
    for k in 0..n {
        let s = Step::at(steps, first + k);
        next = expand_node(table, d, i + 1, out, s.node, s.len, next);
    }
}

// The table's steps, from the last event back.
fn fill(rules: &[u64], steps: &[u64], c: Used, table: &[u64], d: Used, out: &mut [u64])
    requires { Fillable rules.now steps.now c table.now out.old d }
    ensures { out.new ≡ sets out.old 0 (encode step_layout (walks_of (events_in rules.now steps.now c))) }
{
    for i in (0..c.rules).rev() {
        expand_event(rules, steps, table, d, out, i);
    }
}

// The expanded table, whose lengths are measured and have room.
pub fn write_table(
    rules: &[u64],
    steps: &[u64],
    c: Used,
    lens: &[u64],
    d: Used,
    table: &mut [u64],
    out: &mut [u64],
)
    requires { Buildable rules.now steps.now c lens.now table.old out.old d }
    ensures { TableIn (expanded (list_of rules.now steps.now c)) table.old out.old table.new out.new }
{
    write_rules(rules, c.rules, lens, table);
    fill(rules, steps, c, table, d, out);
}
