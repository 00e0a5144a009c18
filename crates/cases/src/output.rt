// Answers to standard output, through a buffer.
ghost use Rattle.std.specs.Prelude.{◌-◌, ◌+◌, ◌≤◌, ◌<◌, length};
ghost use Rattle.cases.specs.Answers.{Room};

use crate::faults::Fault;
use crate::parts::Kind;
use crate::{lend, parts};
use events::Used;
use store::Counts;

// What was written leaves the buffer where fewer than 32 bytes are free, whether or not it can be printed; the place to go
// on at.
fn room(rt: &impl Print, out: &[u8], at: usize) -> usize
    requires { Room at out.now }
    ensures { result + 32 ≤ length out.now }
{
    if out.len() - at < 32 {
        let _ = rt.write_all(&out[..at]);
        return 0;
    }
    at
}

pub fn put_byte(rt: &impl Print, out: &mut [u8], at: usize, b: u8) -> usize
    requires { Room at out.old }
    ensures { Room result out.new }
{
    let from = room(rt, out, at);
    out[from] = b;
    from + 1
}

pub fn put_number(rt: &impl Print, out: &mut [u8], at: usize, n: u64) -> usize
    requires { Room at out.old }
    ensures { Room result out.new }
{
    let from = room(rt, out, at);
    kit::put_decimal(out, from, n)
}

// A space and a number.
pub fn put_next(rt: &impl Print, out: &mut [u8], at: usize, n: u64) -> usize
    requires { Room at out.old }
    ensures { Room result out.new }
{
    let from = put_byte(rt, out, at, b' ');
    put_number(rt, out, from, n)
}

pub fn put_two(rt: &impl Print, out: &mut [u8], at: usize, a: u64, b: u64) -> usize
    requires { Room at out.old }
    ensures { Room result out.new }
{
    let to = put_number(rt, out, at, a);
    put_next(rt, out, to, b)
}

pub fn put_counts(rt: &impl Print, out: &mut [u8], at: usize, c: Counts) -> usize
    requires { Room at out.old }
    ensures { Room result out.new }
{
    let a = put_next(rt, out, at, c.nodes as u64);
    let b = put_next(rt, out, a, c.letters as u64);
    put_next(rt, out, b, c.links as u64)
}

pub fn put_used(rt: &impl Print, out: &mut [u8], at: usize, u: Used) -> usize
    requires { Room at out.old }
    ensures { Room result out.new }
{
    let a = put_next(rt, out, at, u.rules as u64);
    put_next(rt, out, a, u.steps as u64)
}

// How many numbers from i on equal the one at i.
fn run(numbers: &[u64], i: usize) -> usize
    requires { i < length numbers.now }
    ensures { (0 < result) × (i + result ≤ length numbers.now) }
{
    let most = numbers.len() - i;
    for n in 1..most {
        if numbers[i + n] != numbers[i] {
            return n;
        }
    }
    most
}

// A space and a number, with `*` and how often it stands where that is more than once.
fn put_run(rt: &impl Print, out: &mut [u8], at: usize, value: u64, n: u64) -> usize
    requires { Room at out.old }
    ensures { Room result out.new }
{
    let next = put_next(rt, out, at, value);
    if n == 1 {
        return next;
    }
    let from = put_byte(rt, out, next, b'*');
    put_number(rt, out, from, n)
}

// Numbers with a space before each, equal ones in a row as a run.
pub fn put_elements(rt: &impl Print, out: &mut [u8], at: usize, numbers: &[u64]) -> usize
    requires { Room at out.old }
    ensures { Room result out.new }
{
    let mut to = at;
    let mut i: usize = 0;
    // The place moves by a run's length, so it is no count.
    while i < numbers.len() {
        let n = run(numbers, i);
        to = put_run(rt, out, to, numbers[i], n as u64);
        i += n;
    }
    to
}

// A lent array: a space, its length, then its numbers.
pub fn put_array(rt: &impl Print, out: &mut [u8], at: usize, numbers: &[u64]) -> usize
    requires { Room at out.old }
    ensures { Room result out.new }
{
    let to = put_next(rt, out, at, numbers.len() as u64);
    put_elements(rt, out, to, numbers)
}

// The arrays among the first k items of a case, as they were given.
pub fn put_given(
    rt: &impl Print,
    out: &mut [u8],
    at: usize,
    numbers: &[u64],
    shape: &[u8],
    k: usize,
) -> usize
    requires { Room at out.old }
    ensures { Room result out.new }
{
    let mut to = at;
    for i in 0..k {
        to = put_item(rt, out, to, numbers, shape, i);
    }
    to
}

// Item i, if it is an array.
pub fn put_item(
    rt: &impl Print,
    out: &mut [u8],
    at: usize,
    numbers: &[u64],
    shape: &[u8],
    i: usize,
) -> usize
    requires { Room at out.old }
    ensures { Room result out.new }
{
    if i < shape.len() {
        if Kind::from(shape[i]) == Kind::Number {
            return at;
        }
    }
    let elements = parts::array(numbers, shape, i);
    put_array(rt, out, at, elements)
}

// The last array of an answer.
pub fn put_last(rt: &impl Print, out: &mut [u8], at: usize, numbers: &[u64]) -> usize
    requires { Room at out.old }
    ensures { Room result out.new }
{
    let to = put_array(rt, out, at, numbers);
    put_byte(rt, out, to, b'\n')
}

pub fn put_last_bytes(rt: &impl Print, out: &mut [u8], at: usize, bytes: &[u8]) -> usize
    requires { Room at out.old }
    ensures { Room result out.new }
{
    // No heap: the room is of fixed size.
    let mut space = [0u64; 65536];
    let numbers = lend::widen(bytes, &mut space);
    put_last(rt, out, at, numbers)
}

pub fn put_text(rt: &impl Print, out: &mut [u8], at: usize, text: &[u8]) -> usize
    requires { Room at out.old }
    ensures { Room result out.new }
{
    let mut to = at;
    for b in text {
        to = put_byte(rt, out, to, *b);
    }
    to
}

pub fn put_fault(rt: &impl Print, out: &mut [u8], at: usize, fault: impl Into<Fault>) -> usize
    requires { Room at out.old }
    ensures { Room result out.new }
{
    match fault.into() {
        Fault::BadNumbers => put_text(rt, out, at, b"bad numbers\n"),
        Fault::BadEnd => put_text(rt, out, at, b"bad end\n"),
        Fault::BadLetters => put_text(rt, out, at, b"bad letters\n"),
        Fault::BadRoom => put_text(rt, out, at, b"bad room\n"),
    }
}
