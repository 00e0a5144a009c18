// Operations that write text.
ghost use Rattle.std.specs.Prelude.{◌≡◌, cond, eqb};
ghost use Rattle.cases.specs.Answers.{Room};
ghost use Rattle.text_runs.specs.declared.printers.Operation.TheVariants.{PrintActiveSubgraph, ParseAndTransformPaths, PrintTransformations};

use cases::{faults, lend, output, parts};
use writing::Written;

#[derive(Clone, Copy, PartialEq, Eq)]
pub enum Operation {
    PrintActiveSubgraph,
    PrintTransformations,
    ParseAndTransformPaths,
}

// By number, in their order; any number past them is the second.
impl From<u64> for Operation {
    ghost from_gives = { λ n o. o ≡ cond (eqb n 0) PrintActiveSubgraph (cond (eqb n 2) ParseAndTransformPaths PrintTransformations) };

    fn from(n: u64) -> Operation {
        match n {
            0 => Operation::PrintActiveSubgraph,
            2 => Operation::ParseAndTransformPaths,
            _ => Operation::PrintTransformations,
        }
    }
}

// The room is the last item, k; the arrays before it are as they were given.
fn put_written(
    rt: &impl Print,
    out: &mut [u8],
    at: usize,
    r: Written,
    room: &[u8],
    given: &[u64],
    shape: &[u8],
    k: usize,
) -> usize
    requires { Room at out.old }
    ensures { Room result out.new }
{
    let a = output::put_two(rt, out, at, r.number, r.len as u64);
    let b = output::put_given(rt, out, a, given, shape, k);
    output::put_last_bytes(rt, out, b, room)
}

fn print_active_subgraph(given: &[u64], shape: &[u8], letters: &[u8], room: &mut [u8]) -> Written {
    gfaffix::print_active_subgraph::print_active_subgraph(
        parts::array(given, shape, 0),
        letters,
        parts::array(given, shape, 2),
        parts::counts(given, shape, 3),
        room,
    )
}

fn print_transformations(given: &[u64], shape: &[u8], letters: &[u8], room: &mut [u8]) -> Written {
    gfaffix::print_transformations::print_transformations(
        parts::array(given, shape, 0),
        letters,
        parts::array(given, shape, 2),
        parts::counts(given, shape, 3),
        parts::array(given, shape, 6),
        parts::array(given, shape, 7),
        parts::used(given, shape, 8),
        room,
    )
}

fn parse_and_transform_paths(
    given: &[u64],
    shape: &[u8],
    lines: &[u8],
    letters: &[u8],
    room: &mut [u8],
) -> Written {
    gfaffix::parse_and_transform_paths::parse_and_transform_paths(
        lines,
        parts::array(given, shape, 1),
        letters,
        parts::array(given, shape, 3),
        parts::counts(given, shape, 4),
        parts::array(given, shape, 7),
        parts::array(given, shape, 8),
        parts::used(given, shape, 9),
        room,
    )
}

// The one that has text of its own before the graph.
fn with_paths(
    rt: &impl Print,
    given: &[u64],
    shape: &[u8],
    text: &[u8],
    out: &mut [u8],
    at: usize,
) -> usize
    requires { Room at out.old }
    ensures { Room result out.new }
{
    // No heap: the room is of fixed size.
    let mut first = [0u8; 131072];
    let mut second = [0u8; 65536];
    let letters = lend::bytes(given, shape, 2, &mut first);
    let room = lend::bytes(given, shape, 11, &mut second);
    let r = parse_and_transform_paths(given, shape, text, letters, room);
    put_written(rt, out, at, r, room, given, shape, 11)
}

pub fn run(
    rt: &impl Print,
    operation: impl Into<Operation>,
    given: &[u64],
    shape: &[u8],
    text: &mut [u8],
    out: &mut [u8],
    at: usize,
) -> usize
    requires { Room at out.old }
    ensures { Room result out.new }
{
    let operation = operation.into();
    if let Some(fault) = faults::first_fault(given, shape) {
        return output::put_fault(rt, out, at, fault);
    }
    // No heap: the room is of fixed size.
    let mut space = [0u8; 65536];
    match operation {
        Operation::PrintActiveSubgraph => {
            let letters = lend::bytes(given, shape, 1, text);
            let room = lend::bytes(given, shape, 6, &mut space);
            let r = print_active_subgraph(given, shape, letters, room);
            put_written(rt, out, at, r, room, given, shape, 6)
        }
        Operation::PrintTransformations => {
            let letters = lend::bytes(given, shape, 1, text);
            let room = lend::bytes(given, shape, 10, &mut space);
            let r = print_transformations(given, shape, letters, room);
            put_written(rt, out, at, r, room, given, shape, 10)
        }
        Operation::ParseAndTransformPaths => {
            let lines = lend::bytes(given, shape, 0, text);
            with_paths(rt, given, shape, lines, out, at)
        }
    }
}
