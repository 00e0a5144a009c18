// Operations that change a graph and its event list.
ghost use Rattle.std.specs.Prelude.{◌≡◌, cond, eqb};
ghost use Rattle.cases.specs.Answers.{Room};
ghost use Rattle.graph_runs.specs.declared.changing.Operation.TheVariants.{Collapse, CollapseAll};

use cases::{faults, lend, output, parts};
use collapsing::Collapsed;
use driver::Driven;
use events::Used;
use store::Counts;

#[derive(Clone, Copy, PartialEq, Eq)]
pub enum Operation {
    Collapse,
    CollapseAll,
}

// 0 is one collapse, any other number the driver.
impl From<u64> for Operation {
    ghost from_gives = { λ n o. o ≡ cond (eqb n 0) Collapse CollapseAll };

    fn from(n: u64) -> Operation {
        match n {
            0 => Operation::Collapse,
            _ => Operation::CollapseAll,
        }
    }
}

// The graph after the call, whose letters nothing changes, and the list.
fn put_arrays(
    rt: &impl Print,
    out: &mut [u8],
    at: usize,
    nodes: &[u64],
    links: &[u64],
    rules: &[u64],
    steps: &[u64],
    given: &[u64],
    shape: &[u8],
) -> usize
    requires { Room at out.old }
    ensures { Room result out.new }
{
    let a = output::put_array(rt, out, at, nodes);
    let b = output::put_item(rt, out, a, given, shape, 1);
    let d = output::put_array(rt, out, b, links);
    let e = output::put_array(rt, out, d, rules);
    let f = output::put_array(rt, out, e, steps);
    let g = output::put_item(rt, out, f, given, shape, 10);
    output::put_byte(rt, out, g, b'\n')
}

// An answer's numbers.
fn put_numbers(
    rt: &impl Print,
    out: &mut [u8],
    at: usize,
    number: u64,
    res: u64,
    c: Counts,
    u: Used,
) -> usize
    requires { Room at out.old }
    ensures { Room result out.new }
{
    let a = output::put_two(rt, out, at, number, res);
    let b = output::put_counts(rt, out, a, c);
    output::put_used(rt, out, b, u)
}

fn collapsed(
    given: &[u64],
    shape: &[u8],
    nodes: &mut [u64],
    letters: &[u8],
    links: &mut [u64],
    rules: &mut [u64],
    steps: &mut [u64],
) -> Collapsed {
    gfaffix::collapse::collapse(
        nodes,
        letters,
        links,
        parts::counts(given, shape, 3),
        rules,
        steps,
        parts::used(given, shape, 8),
        parts::array(given, shape, 10),
        parts::number(given, shape, 11),
    )
}

fn collapse(
    rt: &impl Print,
    given: &[u64],
    shape: &[u8],
    nodes: &mut [u64],
    letters: &[u8],
    links: &mut [u64],
    rules: &mut [u64],
    steps: &mut [u64],
    out: &mut [u8],
    at: usize,
) -> usize
    requires { Room at out.old }
    ensures { Room result out.new }
{
    let r = collapsed(given, shape, nodes, letters, links, rules, steps);
    let a = put_numbers(rt, out, at, r.number, r.shared, r.counts, r.used);
    put_arrays(rt, out, a, nodes, links, rules, steps, given, shape)
}

fn driven(
    given: &[u64],
    shape: &[u8],
    nodes: &mut [u64],
    letters: &[u8],
    links: &mut [u64],
    rules: &mut [u64],
    steps: &mut [u64],
) -> Driven {
    gfaffix::collapse_all::collapse_all(
        nodes,
        letters,
        links,
        parts::counts(given, shape, 3),
        rules,
        steps,
        parts::used(given, shape, 8),
        parts::array(given, shape, 10),
    )
}

fn collapse_all(
    rt: &impl Print,
    given: &[u64],
    shape: &[u8],
    nodes: &mut [u64],
    letters: &[u8],
    links: &mut [u64],
    rules: &mut [u64],
    steps: &mut [u64],
    out: &mut [u8],
    at: usize,
) -> usize
    requires { Room at out.old }
    ensures { Room result out.new }
{
    let r = driven(given, shape, nodes, letters, links, rules, steps);
    let a = put_numbers(rt, out, at, r.number, r.made, r.counts, r.used);
    put_arrays(rt, out, a, nodes, links, rules, steps, given, shape)
}

pub fn run(
    rt: &impl Print,
    operation: impl Into<Operation>,
    given: &[u64],
    shape: &[u8],
    text: &mut [u8],
    out: &mut [u8],
    at: usize,
) -> usize
    requires { Room at out.old }
    ensures { Room result out.new }
{
    let operation = operation.into();
    if let Some(fault) = faults::first_fault(given, shape) {
        return output::put_fault(rt, out, at, fault);
    }
    // No heap: the room is of fixed size.
    let mut first = [0u64; 16384];
    let mut second = [0u64; 16384];
    let mut third = [0u64; 16384];
    let mut fourth = [0u64; 16384];
    let nodes = lend::numbers(given, shape, 0, &mut first);
    let letters = lend::bytes(given, shape, 1, text);
    let links = lend::numbers(given, shape, 2, &mut second);
    let rules = lend::numbers(given, shape, 6, &mut third);
    let steps = lend::numbers(given, shape, 7, &mut fourth);
    match operation {
        Operation::Collapse => collapse(
            rt, given, shape, nodes, letters, links, rules, steps, out, at,
        ),
        Operation::CollapseAll => collapse_all(
            rt, given, shape, nodes, letters, links, rules, steps, out, at,
        ),
    }
}
