// The rules of a table, one by one: conditions 1 to 4.
// Who calls the scan has tested both graphs and the table for 13.
#![tactic(auto)]

ghost use Rattle.std.specs.Prelude.{◌+◌, ◌-◌, ◌*◌, ◌≤◌, ◌<◌, ◌≡◌, true, cond, not, ◌||◌, [], ◌∷◌, map, eqb, length, take, drop, get_or};
ghost use Rattle.kit.specs.Loops.{sum};
ghost use Rattle.letters.specs.Sequences.{same_spelling};
ghost use Rattle.handle.specs.Handle.{pack};
ghost use Rattle.store.specs.Graph.{graph_of};
ghost use Rattle.store.specs.Views.{spell};
ghost use Rattle.formed.specs.WellFormed.{well_formed};
ghost use Rattle.affix.specs.Reading.{Readable, read};
ghost use Rattle.events.specs.Events.{rule, step, rules_of, steps_of};
ghost use Rattle.events.specs.WellFormed.{table_formed};
ghost use Rattle.spelling.specs.Spelling.{spell_walk};
ghost use Rattle.scanning.specs.Rules.{verdict, or_then, unless, step_fault, lengths_sum, is_old_key, spells_key, rules_fault};

use affix::Reading;
use events::{Rule, Step, Used};
use handle::Handle;
use store::{Counts, Node};

// 01's number, and two places. C gets it.
#[repr(C)]
#[derive(Clone, Copy)]
pub struct Verdict {
    pub number: u64,
    pub first: u64,
    pub second: u64,
}

fn fault(number: u64, rule: usize, step: usize) -> Verdict
    ensures { result ≡ verdict number rule step }
{
    Verdict {
        number,
        first: rule as u64,
        second: step as u64,
    }
}

// 2: 21, 22, 23 or 0 of the step at place `at`, which is step j of its walk.
pub fn step_fault(
    nodes: &[u64],
    links: &[u64],
    d: Counts,
    steps: &[u64],
    at: usize,
    j: usize,
) -> u64
    requires nodes_in_bounds { (4 * d.nodes ≤ length nodes.now) × (3 * d.links ≤ length links.now) }
    requires at_in_bounds { (2 * at + 1 < length steps.now) × (j ≤ at) }
    ensures { result ≡ (step_fault (graph_of nodes.now [] links.now d) 0 0 (cond (eqb j 0) [] (step (get_or steps.now (2 * (at - 1)) 0) (get_or steps.now (2 * (at - 1) + 1) 0) ∷ [])) (step (get_or steps.now (2 * at) 0) (get_or steps.now (2 * at + 1) 0))).number }
{
    let s = Step::at(steps, at);
    let id = s.node.id();
    let Some(i) = store::find_node(nodes, d.nodes, id) else {
        return 21;
    };
    if !store::live_node(nodes, d.nodes, id) {
        return 21;
    }
    if s.len != Node::at(nodes, i).len {
        return 22;
    }
    if j == 0 {
        return 0;
    }
    if !store::live_linked(nodes, links, d, Step::at(steps, at - 1).node, s.node) {
        return 23;
    }
    0
}

// 3: whether the recorded lengths from `first` to `end` sum to `len`. They may be any numbers, so none is added up.
fn lengths_sum(steps: &[u64], first: usize, end: usize, len: u64) -> bool
    requires { 2 * end ≤ length steps.now }
    ensures { result ≡ eqb (sum (λ s. s.len) (drop first (steps_of end steps.now))) len }
{
    let mut left = len;
    for j in first..end {
        let n = Step::at(steps, j).len;
        if left < n {
            return false;
        }
        left -= n;
    }
    left == 0
}

// Whether the letters of s are those of r from place `off` on, case aside.
fn same_part(old_text: &[u8], r: Reading, off: usize, text: &[u8], s: Reading) -> bool
    requires { (r.start + r.len ≤ length old_text.now) × (s.start + s.len ≤ length text.now) × (off + s.len ≤ r.len) }
    ensures { result ≡ same_spelling (take s.len (drop off (read old_text.now r))) (read text.now s) }
{
    let len = s.len;
    for k in 0..len {
        let a = affix::letter(old_text, r, off + k);
        if !letters::same_letter(a, affix::letter(text, s, k)) {
            return false;
        }
    }
    true
}

// Whether the steps from `first` to `end` spell the letters of r, case aside.
fn same_walk(
    old_text: &[u8],
    r: Reading,
    nodes: &[u64],
    text: &[u8],
    d: Counts,
    steps: &[u64],
    first: usize,
    end: usize,
) -> bool
    requires len_in_bounds { (r.start + r.len ≤ length old_text.now) × (2 * end ≤ length steps.now) }
    requires readable { Readable nodes.now text.now d }
    ensures { result ≡ same_spelling (read old_text.now r) (spell_walk (graph_of nodes.now text.now [] d) (map (λ s. s.node) (drop first (steps_of end steps.now)))) }
{
    let len = r.len;
    let mut off: usize = 0;
    for j in first..end {
        let s = affix::look_up(nodes, d.nodes, Step::at(steps, j).node.packed);
        let part = s.len;
        if len - off < part {
            return false;
        }
        if !same_part(old_text, r, off, text, s) {
            return false;
        }
        off += part;
    }
    off == len
}

// 4: where the key is an old node of that length, whether the steps from `first` to `end` spell it.
fn spells_key(
    old_nodes: &[u64],
    old_text: &[u8],
    c: Counts,
    nodes: &[u64],
    text: &[u8],
    d: Counts,
    steps: &[u64],
    first: usize,
    end: usize,
    id: u64,
    len: u64,
) -> bool
    requires { Readable old_nodes.now old_text.now c × Readable nodes.now text.now d × (2 * end ≤ length steps.now) }
    ensures { result ≡ (not (is_old_key (graph_of old_nodes.now old_text.now [] c) (rule id len 0 0)) || same_spelling (spell (graph_of old_nodes.now old_text.now [] c) (pack id 0)) (spell_walk (graph_of nodes.now text.now [] d) (map (λ s. s.node) (drop first (steps_of end steps.now))))) }
{
    let Some(i) = store::find_node(old_nodes, c.nodes, id) else {
        return true;
    };
    let old = Node::at(old_nodes, i);
    if old.len != len {
        return true;
    }
    let r = Reading {
        start: old.start as usize,
        len: len as usize,
        direction: Handle::FORWARD,
    };
    same_walk(old_text, r, nodes, text, d, steps, first, end)
}

// 3 and 4: 24, 25 or 0 of rule i.
fn key_fault(
    old_nodes: &[u64],
    old_text: &[u8],
    c: Counts,
    nodes: &[u64],
    text: &[u8],
    d: Counts,
    rules: &[u64],
    steps: &[u64],
    u: Used,
    i: usize,
) -> u64
    requires readable { Readable old_nodes.now old_text.now c × Readable nodes.now text.now d }
    requires i_lt_rules { (i < u.rules) × (4 * u.rules ≤ length rules.now) × (2 * u.steps ≤ length steps.now) }
    requires i_bound { get_or rules.now (4 * i + 2) 0 + get_or rules.now (4 * i + 3) 0 ≤ u.steps }
    ensures { result ≡ (or_then (unless (lengths_sum (steps_of u.steps steps.now) (get_or (rules_of u.rules rules.now) i (rule 0 0 0 0))) 24 0 0) (unless (spells_key (graph_of old_nodes.now old_text.now [] c) (graph_of nodes.now text.now [] d) (steps_of u.steps steps.now) (get_or (rules_of u.rules rules.now) i (rule 0 0 0 0))) 25 0 0)).number }
{
    let r = Rule::at(rules, i);
    let first = r.first as usize;
    let end = first + r.steps as usize;
    if !lengths_sum(steps, first, end, r.len) {
        return 24;
    }
    if !spells_key(
        old_nodes, old_text, c, nodes, text, d, steps, first, end, r.id, r.len,
    ) {
        return 25;
    }
    0
}

// 1 to 4, rule by rule. 01 names the form: one scan, left by label with the fault and its places.
pub fn scan_rules(
    old_nodes: &[u64],
    old_text: &[u8],
    c: Counts,
    nodes: &[u64],
    text: &[u8],
    links: &[u64],
    d: Counts,
    rules: &[u64],
    steps: &[u64],
    u: Used,
) -> Verdict
    requires readable { Readable old_nodes.now old_text.now c }
    requires d_value { (well_formed nodes.now text.now links.now d ≡ true) × (table_formed rules.now steps.now u ≡ true) }
    ensures { result ≡ rules_fault (graph_of old_nodes.now old_text.now [] c) (graph_of nodes.now text.now links.now d) (steps_of u.steps steps.now) 0 (rules_of u.rules rules.now) }
{
    let count = u.rules;
    let mut i: usize = 0;
    'scan: loop {
        if i == count {
            break 'scan fault(0, 0, 0);
        }
        let r = Rule::at(rules, i);
        let first = r.first as usize;
        let walk = r.steps as usize;
        if walk == 0 {
            break 'scan fault(20, i, 0);
        }
        for j in 0..walk {
            let n = step_fault(nodes, links, d, steps, first + j, j);
            if n != 0 {
                break 'scan fault(n, i, j);
            }
        }
        let n = key_fault(old_nodes, old_text, c, nodes, text, d, rules, steps, u, i);
        if n != 0 {
            break 'scan fault(n, i, 0);
        }
        i += 1;
    }
}
