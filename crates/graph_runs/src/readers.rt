// Operations on a graph that is only read, with room for bytes or none.
ghost use Rattle.std.specs.Prelude.{◌≡◌, cond, eqb};
ghost use Rattle.cases.specs.Answers.{Room};
ghost use Rattle.graph_runs.specs.declared.readers.Operation.TheVariants.{LiveLetters, GetSharedPrefix, SpellWalk, CheckTransform};

use cases::{faults, lend, output, parts};
use scanning::Verdict;

#[derive(Clone, Copy, PartialEq, Eq)]
pub enum Operation {
    LiveLetters,
    GetSharedPrefix,
    SpellWalk,
    CheckTransform,
}

// By number, in their order; any number past them is the last.
impl From<u64> for Operation {
    ghost from_gives = { λ n o. o ≡ cond (eqb n 0) LiveLetters (cond (eqb n 1) GetSharedPrefix (cond (eqb n 2) SpellWalk CheckTransform)) };

    fn from(n: u64) -> Operation {
        match n {
            0 => Operation::LiveLetters,
            1 => Operation::GetSharedPrefix,
            2 => Operation::SpellWalk,
            _ => Operation::CheckTransform,
        }
    }
}

fn live_letters(
    rt: &impl Print,
    given: &[u64],
    shape: &[u8],
    letters: &[u8],
    out: &mut [u8],
    at: usize,
) -> usize
    requires { Room at out.old }
    ensures { Room result out.new }
{
    let r = gfaffix::live_letters::live_letters(
        parts::array(given, shape, 0),
        letters,
        parts::array(given, shape, 2),
        parts::counts(given, shape, 3),
    );
    let a = output::put_two(rt, out, at, r.number, r.total);
    let b = output::put_given(rt, out, a, given, shape, 6);
    output::put_byte(rt, out, b, b'\n')
}

fn get_shared_prefix(
    rt: &impl Print,
    given: &[u64],
    shape: &[u8],
    letters: &[u8],
    room: &mut [u8],
    out: &mut [u8],
    at: usize,
) -> usize
    requires { Room at out.old }
    ensures { Room result out.new }
{
    let r = gfaffix::get_shared_prefix::get_shared_prefix(
        parts::array(given, shape, 0),
        letters,
        parts::array(given, shape, 2),
        parts::counts(given, shape, 3),
        parts::array(given, shape, 6),
        room,
    );
    let a = output::put_two(rt, out, at, r.number, r.length as u64);
    let b = output::put_given(rt, out, a, given, shape, 7);
    output::put_last_bytes(rt, out, b, room)
}

fn spell_walk(
    rt: &impl Print,
    given: &[u64],
    shape: &[u8],
    letters: &[u8],
    room: &mut [u8],
    out: &mut [u8],
    at: usize,
) -> usize
    requires { Room at out.old }
    ensures { Room result out.new }
{
    let r = gfaffix::spell_walk::spell_walk(
        parts::array(given, shape, 0),
        letters,
        parts::array(given, shape, 2),
        parts::counts(given, shape, 3),
        parts::array(given, shape, 6),
        room,
    );
    let a = output::put_two(rt, out, at, r.number, r.place as u64);
    let b = output::put_next(rt, out, a, r.length as u64);
    let e = output::put_given(rt, out, b, given, shape, 7);
    output::put_last_bytes(rt, out, e, room)
}

// The other letters are the new graph's.
fn judged(given: &[u64], shape: &[u8], letters: &[u8], others: &[u8]) -> Verdict {
    gfaffix::check_transform::check_transform(
        parts::array(given, shape, 0),
        letters,
        parts::array(given, shape, 2),
        parts::counts(given, shape, 3),
        parts::array(given, shape, 6),
        others,
        parts::array(given, shape, 8),
        parts::counts(given, shape, 9),
        parts::array(given, shape, 12),
        parts::array(given, shape, 13),
        parts::used(given, shape, 14),
        parts::array(given, shape, 16),
    )
}

fn check_transform(
    rt: &impl Print,
    given: &[u64],
    shape: &[u8],
    letters: &[u8],
    others: &[u8],
    out: &mut [u8],
    at: usize,
) -> usize
    requires { Room at out.old }
    ensures { Room result out.new }
{
    let r = judged(given, shape, letters, others);
    let a = output::put_two(rt, out, at, r.number, r.first);
    let b = output::put_next(rt, out, a, r.second);
    let e = output::put_given(rt, out, b, given, shape, 17);
    output::put_byte(rt, out, e, b'\n')
}

// Item 7, where there is one, is the room, or a second graph's letters.
pub fn run(
    rt: &impl Print,
    operation: impl Into<Operation>,
    given: &[u64],
    shape: &[u8],
    text: &mut [u8],
    out: &mut [u8],
    at: usize,
) -> usize
    requires { Room at out.old }
    ensures { Room result out.new }
{
    let operation = operation.into();
    if let Some(fault) = faults::first_fault(given, shape) {
        return output::put_fault(rt, out, at, fault);
    }
    // No heap: the room is of fixed size.
    let mut space = [0u8; 131072];
    let letters = lend::bytes(given, shape, 1, text);
    let room = lend::bytes(given, shape, 7, &mut space);
    match operation {
        Operation::LiveLetters => live_letters(rt, given, shape, letters, out, at),
        Operation::GetSharedPrefix => get_shared_prefix(rt, given, shape, letters, room, out, at),
        Operation::SpellWalk => spell_walk(rt, given, shape, letters, room, out, at),
        Operation::CheckTransform => check_transform(rt, given, shape, letters, room, out, at),
    }
}
