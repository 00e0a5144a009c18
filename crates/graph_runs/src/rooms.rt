// Operations with room for numbers, of which two arrays are lent.
ghost use Rattle.std.specs.Prelude.{◌≡◌, cond, eqb};
ghost use Rattle.cases.specs.Answers.{Room};
ghost use Rattle.graph_runs.specs.declared.rooms.Operation.TheVariants.{TransformWalk, Expand, EnumerateBranch};

use cases::{faults, lend, output, parts};
use gfaffix::transform_walk::Rewritten;

#[derive(Clone, Copy, PartialEq, Eq)]
pub enum Operation {
    EnumerateBranch,
    TransformWalk,
    Expand,
}

// By number, in their order; any number past them is the first.
impl From<u64> for Operation {
    ghost from_gives = { λ n o. o ≡ cond (eqb n 1) TransformWalk (cond (eqb n 2) Expand EnumerateBranch) };

    fn from(n: u64) -> Operation {
        match n {
            1 => Operation::TransformWalk,
            2 => Operation::Expand,
            _ => Operation::EnumerateBranch,
        }
    }
}

fn enumerate_branch(
    rt: &impl Print,
    given: &[u64],
    shape: &[u8],
    letters: &[u8],
    members: &mut [u64],
    ends: &mut [u64],
    out: &mut [u8],
    at: usize,
) -> usize
    requires { Room at out.old }
    ensures { Room result out.new }
{
    let r = gfaffix::enumerate_branch::enumerate_branch(
        parts::array(given, shape, 0),
        letters,
        parts::array(given, shape, 2),
        parts::counts(given, shape, 3),
        parts::number(given, shape, 6),
        members,
        ends,
    );
    let a = output::put_two(rt, out, at, r.number, r.groups as u64);
    let b = output::put_given(rt, out, a, given, shape, 7);
    let e = output::put_array(rt, out, b, members);
    output::put_last(rt, out, e, ends)
}

fn rewritten(given: &[u64], shape: &[u8], letters: &[u8], room: &mut [u64]) -> Rewritten {
    gfaffix::transform_walk::transform_walk(
        parts::array(given, shape, 0),
        letters,
        parts::array(given, shape, 2),
        parts::counts(given, shape, 3),
        parts::array(given, shape, 6),
        parts::array(given, shape, 7),
        parts::used(given, shape, 8),
        parts::array(given, shape, 10),
        room,
    )
}

fn transform_walk(
    rt: &impl Print,
    given: &[u64],
    shape: &[u8],
    letters: &[u8],
    room: &mut [u64],
    out: &mut [u8],
    at: usize,
) -> usize
    requires { Room at out.old }
    ensures { Room result out.new }
{
    let r = rewritten(given, shape, letters, room);
    let a = output::put_two(rt, out, at, r.number, r.length as u64);
    let b = output::put_given(rt, out, a, given, shape, 11);
    output::put_last(rt, out, b, room)
}

fn expand(
    rt: &impl Print,
    given: &[u64],
    shape: &[u8],
    rules: &mut [u64],
    steps: &mut [u64],
    out: &mut [u8],
    at: usize,
) -> usize
    requires { Room at out.old }
    ensures { Room result out.new }
{
    let r = gfaffix::expand::expand(
        parts::array(given, shape, 0),
        parts::array(given, shape, 1),
        parts::used(given, shape, 2),
        rules,
        steps,
    );
    let a = output::put_number(rt, out, at, r.number);
    let b = output::put_used(rt, out, a, r.used);
    let e = output::put_given(rt, out, b, given, shape, 4);
    let f = output::put_array(rt, out, e, rules);
    output::put_last(rt, out, f, steps)
}

pub fn run(
    rt: &impl Print,
    operation: impl Into<Operation>,
    given: &[u64],
    shape: &[u8],
    text: &mut [u8],
    out: &mut [u8],
    at: usize,
) -> usize
    requires { Room at out.old }
    ensures { Room result out.new }
{
    let operation = operation.into();
    if let Some(fault) = faults::first_fault(given, shape) {
        return output::put_fault(rt, out, at, fault);
    }
    // No heap: the room is of fixed size.
    let mut first = [0u64; 131072];
    let mut second = [0u64; 65536];
    match operation {
        Operation::EnumerateBranch => {
            let letters = lend::bytes(given, shape, 1, text);
            let members = lend::numbers(given, shape, 7, &mut first);
            let ends = lend::numbers(given, shape, 8, &mut second);
            enumerate_branch(rt, given, shape, letters, members, ends, out, at)
        }
        Operation::TransformWalk => {
            let letters = lend::bytes(given, shape, 1, text);
            let room = lend::numbers(given, shape, 11, &mut first);
            transform_walk(rt, given, shape, letters, room, out, at)
        }
        Operation::Expand => {
            let rules = lend::numbers(given, shape, 4, &mut first);
            let steps = lend::numbers(given, shape, 5, &mut second);
            expand(rt, given, shape, rules, steps, out, at)
        }
    }
}
