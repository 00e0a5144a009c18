// A whole slice of records as the steps of one walk.
ghost use Rattle.std.specs.Prelude.{◌*◌, ◌≤◌, ◌≡◌, [], length};
ghost use Rattle.store.specs.Graph.{graph_of};
ghost use Rattle.scanning.specs.Rules.{verdict};
ghost use Rattle.records.specs.Records.{input_fault, next_fault, scanned, steps_outcome};

use crate::Step;
use scanning::Verdict;
use store::Counts;

fn fault(number: u64, step: usize) -> Verdict
    ensures { result ≡ verdict number 0 step }
{
    Verdict {
        number,
        first: 0,
        second: step as u64,
    }
}

// 13 or 5 of the graph; 13 of more steps than the limit.
fn input_fault(nodes: &[u64], text: &[u8], links: &[u64], d: Counts, count: usize) -> Verdict
    ensures { result ≡ input_fault nodes.now text.now links.now d count }
{
    if !formed::well_formed(nodes, text, links, d) {
        return fault(13, 0);
    }
    if 262144 < count {
        return fault(13, 0);
    }
    if !formed::ids_once(nodes, d.nodes) {
        return fault(5, 0);
    }
    fault(0, 0)
}

// What stands after the step at place `at` gave this number.
fn next_fault(found: Verdict, number: u64, at: usize) -> Verdict
    ensures { result ≡ next_fault found number at }
{
    if number == 13 {
        return fault(13, 0);
    }
    if found.number != 0 {
        return found;
    }
    if number == 0 {
        return found;
    }
    fault(number, at)
}

// The steps one by one; 13 of a later record comes before what was found so far, so all are looked at.
fn scan_steps(nodes: &[u64], links: &[u64], d: Counts, steps: &[Step], start: Verdict) -> Verdict
    requires { (4 * d.nodes ≤ length nodes.now) × (3 * d.links ≤ length links.now) × (start.first ≡ 0) × (start.second ≡ 0) }
    ensures { result ≡ scanned (graph_of nodes.now [] links.now d) start steps.now }
{
    let mut found = start;
    let mut before: usize = 0;
    for at in 0..steps.len() {
        let number = crate::step_fault(nodes, links, d, steps, before, at);
        found = next_fault(found, number, at);
        before = at;
    }
    found
}

// The steps of one walk against a graph: 13, 5, 21, 22 or 23 with the step's place, or 0.
pub fn check_steps(nodes: &[u64], text: &[u8], links: &[u64], d: Counts, steps: &[Step]) -> Verdict
    ensures { result ≡ steps_outcome nodes.now text.now links.now d steps.now }
{
    let start = input_fault(nodes, text, links, d, steps.len());
    if start.number == 13 {
        return start;
    }
    scan_steps(nodes, links, d, steps, start)
}
