// Operations that read text: into a store, and the header.
ghost use Rattle.std.specs.Prelude.{◌≡◌, cond, eqb};
ghost use Rattle.cases.specs.Answers.{Room};
ghost use Rattle.text_runs.specs.declared.parsers.Operation.TheVariants.{ReadGfa, ParseHeader};

use cases::{faults, lend, output};
use reading::Read;

#[derive(Clone, Copy, PartialEq, Eq)]
pub enum Operation {
    ReadGfa,
    ParseHeader,
}

// 0 is a reading, any other number the header.
impl From<u64> for Operation {
    ghost from_gives = { λ n o. o ≡ cond (eqb n 0) ReadGfa ParseHeader };

    fn from(n: u64) -> Operation {
        match n {
            0 => Operation::ReadGfa,
            _ => Operation::ParseHeader,
        }
    }
}

// A reading's numbers and its store after the call; the text is as it was given.
fn put_read(
    rt: &impl Print,
    out: &mut [u8],
    at: usize,
    r: Read,
    nodes: &[u64],
    letters: &[u64],
    links: &[u64],
    given: &[u64],
    shape: &[u8],
) -> usize
    requires { Room at out.old }
    ensures { Room result out.new }
{
    let a = output::put_number(rt, out, at, r.number);
    let b = output::put_counts(rt, out, a, r.counts);
    let d = output::put_item(rt, out, b, given, shape, 0);
    let e = output::put_array(rt, out, d, nodes);
    let f = output::put_array(rt, out, e, letters);
    output::put_last(rt, out, f, links)
}

fn read_gfa(
    rt: &impl Print,
    given: &[u64],
    shape: &[u8],
    text: &[u8],
    nodes: &mut [u64],
    letters: &mut [u8],
    links: &mut [u64],
    out: &mut [u8],
    at: usize,
) -> usize
    requires { Room at out.old }
    ensures { Room result out.new }
{
    // No heap: the room is of fixed size.
    let mut wide = [0u64; 131072];
    let r = gfaffix::read_gfa::read_gfa(text, nodes, letters, links);
    let read = lend::widen(letters, &mut wide);
    put_read(rt, out, at, r, nodes, read, links, given, shape)
}

fn with_store(
    rt: &impl Print,
    given: &[u64],
    shape: &[u8],
    text: &[u8],
    out: &mut [u8],
    at: usize,
) -> usize
    requires { Room at out.old }
    ensures { Room result out.new }
{
    // No heap: the room is of fixed size.
    let mut first = [0u64; 65536];
    let mut second = [0u8; 131072];
    let mut third = [0u64; 65536];
    let nodes = lend::numbers(given, shape, 1, &mut first);
    let letters = lend::bytes(given, shape, 2, &mut second);
    let links = lend::numbers(given, shape, 3, &mut third);
    read_gfa(rt, given, shape, text, nodes, letters, links, out, at)
}

// One array and nothing else.
fn parse_header(
    rt: &impl Print,
    given: &[u64],
    shape: &[u8],
    text: &[u8],
    out: &mut [u8],
    at: usize,
) -> usize
    requires { Room at out.old }
    ensures { Room result out.new }
{
    // No heap: the room is of fixed size.
    let mut space = [0u8; 131072];
    let mut wide = [0u64; 131072];
    let fallback = lend::bytes(given, shape, 1, &mut space);
    let header = lend::widen(
        gfaffix::parse_header::parse_header(text, fallback),
        &mut wide,
    );
    let a = output::put_number(rt, out, at, header.len() as u64);
    let b = output::put_elements(rt, out, a, header);
    output::put_byte(rt, out, b, b'\n')
}

pub fn run(
    rt: &impl Print,
    operation: impl Into<Operation>,
    given: &[u64],
    shape: &[u8],
    text: &mut [u8],
    out: &mut [u8],
    at: usize,
) -> usize
    requires { Room at out.old }
    ensures { Room result out.new }
{
    let operation = operation.into();
    if let Some(fault) = faults::first_fault(given, shape) {
        return output::put_fault(rt, out, at, fault);
    }
    let lines = lend::bytes(given, shape, 0, text);
    match operation {
        Operation::ReadGfa => with_store(rt, given, shape, lines, out, at),
        Operation::ParseHeader => parse_header(rt, given, shape, lines, out, at),
    }
}
