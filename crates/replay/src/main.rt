// Replays cases: reads each, calls the public operation, prints what it answers and every lent array after the call
// (docs/REPLAY.md).
#![tactic(auto)]

ghost use Rattle.std.specs.Prelude.{◌≤◌, length};
ghost use Rattle.cases.specs.Answers.{Room};

use cases::stream::Source;
use cases::{input, output, stream};
use graph_runs::{changing, readers, rooms};
use std::io;
use text_runs::{parsers, printers};

// The operation with this name, on the numbers of its line. Those that lend the same memory are called through one
// function. It is called from more than one place, so that the compiler leaves it a call of its own: arrays of one kind
// then do not add to those of another on the stack.
fn answer(
    rt: &impl Print,
    name: &[u8],
    numbers: &[u64],
    text: &mut [u8],
    out: &mut [u8],
    at: usize,
) -> usize
    requires { Room at out.old }
    ensures { Room result out.new }
{
    use readers::Operation;
    use readers::run;
    match name {
        b"live_letters" => run(
            rt,
            Operation::LiveLetters,
            numbers,
            b"atannn",
            text,
            out,
            at,
        ),
        b"get_shared_prefix" => {
            run(
                rt,
                Operation::GetSharedPrefix,
                numbers,
                b"atannnab",
                text,
                out,
                at,
            )
        }
        b"spell_walk" => run(
            rt,
            Operation::SpellWalk,
            numbers,
            b"atannnab",
            text,
            out,
            at,
        ),
        b"check_transform" => {
            let shape = b"atannnatannnaanna";
            run(rt, Operation::CheckTransform, numbers, shape, text, out, at)
        }
        _ => with_room(rt, name, numbers, text, out, at),
    }
}

// The same for operations with room for numbers.
fn with_room(
    rt: &impl Print,
    name: &[u8],
    numbers: &[u64],
    text: &mut [u8],
    out: &mut [u8],
    at: usize,
) -> usize
    requires { Room at out.old }
    ensures { Room result out.new }
{
    use rooms::Operation;
    use rooms::run;
    match name {
        b"enumerate_branch" => {
            run(
                rt,
                Operation::EnumerateBranch,
                numbers,
                b"atannnnrr",
                text,
                out,
                at,
            )
        }
        b"transform_walk" => {
            run(
                rt,
                Operation::TransformWalk,
                numbers,
                b"atannnaannar",
                text,
                out,
                at,
            )
        }
        b"expand" => run(rt, Operation::Expand, numbers, b"aannwr", text, out, at),
        _ => that_changes(rt, name, numbers, text, out, at),
    }
}

// The same for operations that change a graph and its event list.
fn that_changes(
    rt: &impl Print,
    name: &[u8],
    numbers: &[u64],
    text: &mut [u8],
    out: &mut [u8],
    at: usize,
) -> usize
    requires { Room at out.old }
    ensures { Room result out.new }
{
    use changing::Operation;
    use changing::run;
    match name {
        b"collapse" => run(
            rt,
            Operation::Collapse,
            numbers,
            b"stsnnnssnnan",
            text,
            out,
            at,
        ),
        b"collapse_all" => {
            run(
                rt,
                Operation::CollapseAll,
                numbers,
                b"stsnnnssnna",
                text,
                out,
                at,
            )
        }
        _ => on_text(rt, name, numbers, text, out, at),
    }
}

// The same for operations on text.
fn on_text(
    rt: &impl Print,
    name: &[u8],
    numbers: &[u64],
    text: &mut [u8],
    out: &mut [u8],
    at: usize,
) -> usize
    requires { Room at out.old }
    ensures { Room result out.new }
{
    use parsers::Operation::{ParseHeader, ReadGfa};
    use printers::Operation::{ParseAndTransformPaths, PrintActiveSubgraph, PrintTransformations};
    match name {
        b"read_gfa" => parsers::run(rt, ReadGfa, numbers, b"trtr", text, out, at),
        b"parse_header" => parsers::run(rt, ParseHeader, numbers, b"tt", text, out, at),
        b"print_active_subgraph" => {
            printers::run(rt, PrintActiveSubgraph, numbers, b"atannnb", text, out, at)
        }
        b"print_transformations" => {
            printers::run(
                rt,
                PrintTransformations,
                numbers,
                b"atannnaannb",
                text,
                out,
                at,
            )
        }
        b"parse_and_transform_paths" => {
            printers::run(
                rt,
                ParseAndTransformPaths,
                numbers,
                b"tatannnaannb",
                text,
                out,
                at,
            )
        }
        _ => output::put_text(rt, out, at, b"bad operation\n"),
    }
}

// One line: a case, or nothing where it is empty or begins with `#`. How much of the answers waits in the buffer.
fn line(
    rt: &(impl Input + Print),
    buf: &mut [u8],
    s: &mut Source,
    numbers: &mut [u64],
    text: &mut [u8],
    out: &mut [u8],
    at: usize,
) -> usize
    requires { Room at out.old }
    ensures { Room result out.new }
{
    if stream::line_ends(s.last) {
        return at;
    }
    if s.last == Some(u64::from(b'#')) {
        *s = stream::skip_line(rt, buf, *s);
        return at;
    }
    // No heap: the room is of fixed size.
    let mut name = [0u8; 32];
    let k = input::word(rt, buf, s, &mut name).unwrap_or(0);
    let count = input::numbers(rt, buf, s, numbers);
    *s = stream::skip_line(rt, buf, *s);
    let Some(n) = count else {
        return output::put_text(rt, out, at, b"bad numbers\n");
    };
    answer(rt, &name[..k], &numbers[..n], text, out, at)
}

// Every line of the input; how much of the answers is left in the buffer. (2^40 lines is past any input.)
fn lines(
    rt: &(impl Input + Print),
    buf: &mut [u8],
    numbers: &mut [u64],
    text: &mut [u8],
    out: &mut [u8],
) -> usize
    requires { 32 ≤ length out.old }
    ensures { result ≤ length out.new }
{
    let mut source = Source {
        at: 0,
        end: 0,
        last: None,
    };
    let mut at: usize = 0;
    for _ in 0..1099511627776_u64 {
        source = stream::advance(rt, buf, source);
        if source.last.is_none() {
            return at;
        }
        at = line(rt, buf, &mut source, numbers, text, out, at);
    }
    at
}

fn main(rt: HostRuntime) -> io::Result<()> {
    // No heap: the room is of fixed size.
    let mut buf = [0u8; 65536];
    let mut numbers = [0u64; 393216];
    let mut text = [0u8; 131072];
    let mut out = [0u8; 65536];
    let n = lines(&rt, &mut buf, &mut numbers, &mut text, &mut out);
    rt.write_all(&out[..n])
}
