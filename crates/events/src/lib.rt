// Event lists and tables in flat arrays, as C lends them. A rule is four numbers (id, length, first step, steps), a step two
// (packed oriented node, length).
#![tactic(auto)]

ghost use Rattle.std.specs.Prelude.{IfSome, ◌+◌, ◌*◌, ◌≤◌, ◌<◌, ◌≡◌, true, ◌&&◌, eqb, length, drop};
ghost use Rattle.kit.specs.Loops.{all, any, find_from};
ghost use Rattle.std.proofs.lemmas.List.Edits.{sets};
ghost use Rattle.events.specs.Events.{pack_rule, pack_step, rule_at, step_at, rules_of, steps_of, list_of, find_rule, keyed};
ghost use Rattle.events.specs.WellFormed.{room_for_rules, good_rule, good_step, has_step, keys_once, table_formed, events_formed, steps_later, in_order};

use handle::Handle;

// How many rules and steps are in use.
#[repr(C)]
#[derive(Clone, Copy)]
pub struct Used {
    pub rules: usize,
    pub steps: usize,
}

// A rule stands under its key, an id with a length; its walk is `steps` steps from `first` on.
#[derive(Clone, Copy)]
pub struct Rule {
    pub id: u64,
    pub len: u64,
    pub first: u64,
    pub steps: u64,
}

impl Rule {
    pub fn at(rules: &[u64], i: usize) -> Self
        requires { 4 * i + 4 ≤ length rules.now }
        ensures { result ≡ rule_at rules.now i }
    {
        let k = 4 * i;
        Self {
            id: rules[k],
            len: rules[k + 1],
            first: rules[k + 2],
            steps: rules[k + 3],
        }
    }

    pub fn put(self, rules: &mut [u64], i: usize)
        requires { 4 * i + 4 ≤ length rules.old }
        ensures { rules.new ≡ sets rules.old (4 * i) (pack_rule self) }
    {
        let k = 4 * i;
        rules[k] = self.id;
        rules[k + 1] = self.len;
        rules[k + 2] = self.first;
        rules[k + 3] = self.steps;
    }
}

// A step of a walk, an oriented node with its recorded length.
#[derive(Clone, Copy)]
pub struct Step {
    pub node: Handle,
    pub len: u64,
}

impl Step {
    pub fn at(steps: &[u64], i: usize) -> Self
        requires { 2 * i + 2 ≤ length steps.now }
        ensures { result ≡ step_at steps.now i }
    {
        let k = 2 * i;
        Self {
            node: Handle { packed: steps[k] },
            len: steps[k + 1],
        }
    }

    pub fn put(self, steps: &mut [u64], i: usize)
        requires { 2 * i + 2 ≤ length steps.old }
        ensures { steps.new ≡ sets steps.old (2 * i) (pack_step self) }
    {
        let k = 2 * i;
        steps[k] = self.node.packed;
        steps[k + 1] = self.len;
    }
}

pub fn same_key(id: u64, len: u64, other: u64, size: u64) -> bool
    ensures { result ≡ (eqb id other && eqb len size) }
{
    id == other && len == size
}

// The slot of the first rule under this key at slot `start` or later.
pub fn next_rule(rules: &[u64], count: usize, start: usize, id: u64, len: u64) -> Option<usize>
    requires { 4 * count ≤ length rules.now }
    ensures value { result ≡ find_from (keyed id len) start (drop start (rules_of count rules.now)) }
    ensures within { IfSome result (λ i. i < count) }
{
    for i in start..count {
        let r = Rule::at(rules, i);
        if same_key(r.id, r.len, id, len) {
            return Some(i);
        }
    }
    None
}

// The slot of the first rule under this key.
pub fn find_rule(rules: &[u64], count: usize, id: u64, len: u64) -> Option<usize>
    requires { 4 * count ≤ length rules.now }
    ensures value { result ≡ find_rule id len (rules_of count rules.now) }
    ensures within { IfSome result (λ i. i < count) }
{
    next_rule(rules, count, 0, id, len)
}

// Whether a rule under this key stands at slot `start` or later.
fn key_again(rules: &[u64], count: usize, start: usize, id: u64, len: u64) -> bool
    requires { 4 * count ≤ length rules.now }
    ensures { result ≡ any (keyed id len) (drop start (rules_of count rules.now)) }
{
    next_rule(rules, count, start, id, len).is_some()
}

pub fn keys_once(rules: &[u64], count: usize) -> bool
    requires { 4 * count ≤ length rules.now }
    ensures { result ≡ keys_once (rules_of count rules.now) }
{
    for i in 0..count {
        let r = Rule::at(rules, i);
        if key_again(rules, count, i + 1, r.id, r.len) {
            return false;
        }
    }
    true
}

// The tests are in an order in which none can overflow.
fn good_rule(total: u64, r: Rule) -> bool
    ensures { result ≡ good_rule total r }
{
    if r.id < 1 {
        return false;
    }
    if Handle::MAX_ID < r.id {
        return false;
    }
    if total < r.steps {
        return false;
    }
    r.first <= total - r.steps
}

fn good_rules(rules: &[u64], count: usize, total: u64) -> bool
    requires { 4 * count ≤ length rules.now }
    ensures { result ≡ all (good_rule total) (rules_of count rules.now) }
{
    for i in 0..count {
        if !good_rule(total, Rule::at(rules, i)) {
            return false;
        }
    }
    true
}

fn good_steps(steps: &[u64], count: usize) -> bool
    requires { 2 * count ≤ length steps.now }
    ensures { result ≡ all good_step (steps_of count steps.now) }
{
    for i in 0..count {
        if !Step::at(steps, i).node.is_handle() {
            return false;
        }
    }
    true
}

fn have_steps(rules: &[u64], count: usize) -> bool
    requires { 4 * count ≤ length rules.now }
    ensures { result ≡ all has_step (rules_of count rules.now) }
{
    for i in 0..count {
        if Rule::at(rules, i).steps < 1 {
            return false;
        }
    }
    true
}

// Counts inside the lent arrays and 01's limits.
pub fn room_for_rules(rules: &[u64], steps: &[u64], c: Used) -> bool
    ensures { result ≡ room_for_rules rules.now steps.now c }
{
    if 65536 < c.rules {
        return false;
    }
    if rules.len() < 4 * c.rules {
        return false;
    }
    if 262144 < c.steps {
        return false;
    }
    2 * c.steps <= steps.len()
}

// A table: its rules may have no steps.
pub fn table_formed(rules: &[u64], steps: &[u64], c: Used) -> bool
    ensures { result ≡ table_formed rules.now steps.now c }
{
    if !room_for_rules(rules, steps, c) {
        return false;
    }
    if !good_rules(rules, c.rules, c.steps as u64) {
        return false;
    }
    good_steps(steps, c.steps)
}

// An event list: each event has a step.
pub fn events_formed(rules: &[u64], steps: &[u64], c: Used) -> bool
    ensures { result ≡ events_formed rules.now steps.now c }
{
    if !table_formed(rules, steps, c) {
        return false;
    }
    have_steps(rules, c.rules)
}

// Whether a rule under this key stands among the first `met`.
fn key_met(rules: &[u64], met: usize, id: u64, len: u64) -> bool
    requires { 4 * met ≤ length rules.now }
    ensures { result ≡ any (keyed id len) (rules_of met rules.now) }
{
    find_rule(rules, met, id, len).is_some()
}

// Whether none of the steps from `start` to `end` has its own rule among the first `met`.
fn steps_later(rules: &[u64], met: usize, steps: &[u64], start: usize, end: usize) -> bool
    requires { (4 * met ≤ length rules.now) × (2 * end ≤ length steps.now) }
    ensures { result ≡ steps_later (rules_of met rules.now) (drop start (steps_of end steps.now)) }
{
    for j in start..end {
        let s = Step::at(steps, j);
        if key_met(rules, met, s.node.id(), s.len) {
            return false;
        }
    }
    true
}

// 12: a step's own rule comes after the step's event, which itself is too early.
pub fn in_order(rules: &[u64], steps: &[u64], c: Used) -> bool
    requires { table_formed rules.now steps.now c ≡ true }
    ensures { result ≡ in_order (list_of rules.now steps.now c) }
{
    let count = c.rules;
    for i in 0..count {
        let r = Rule::at(rules, i);
        let first = r.first as usize;
        let end = first + r.steps as usize;
        if !steps_later(rules, i + 1, steps, first, end) {
            return false;
        }
    }
    true
}
