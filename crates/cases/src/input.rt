// Cases from standard input: a name, then numbers, one case to a line (docs/REPLAY.md). Each of these reads on from the
// source, and answers nothing where what it reads is not to be had.
ghost use Rattle.std.specs.Prelude.{◌≤◌, ◌<◌, ◌≡◌, true, length, IfSome};
ghost use Rattle.cases.specs.Input.{grown, same_word};
ghost use Rattle.cases.specs.Stream.{line_ends, StaysByte};

use crate::stream;
use crate::stream::Source;

pub const SPACE: u64 = 32;

pub const TIMES: u64 = 42;

// n with the digit d after it, where that fits 64 bits.
fn grow(n: u64, d: u64) -> Option<u64>
    ensures { result ≡ grown n d }
{
    if 9 < d {
        return None;
    }
    n.checked_mul(10)?.checked_add(d)
}

// What may stand after a number.
fn stops(last: Option<u64>) -> bool {
    last == Some(SPACE) || last == Some(TIMES) || stream::line_ends(last)
}

// A run of digits and the byte after it.
fn digits(rt: &impl Input, buf: &mut [u8], s: &mut Source) -> Option<u64>
    ensures { StaysByte s.old s.new }
{
    let mut value: u64 = 0;
    for seen in 0..21_usize {
        *s = stream::advance(rt, buf, *s);
        if stops(s.last) {
            return (0 < seen).then_some(value);
        }
        value = grow(value, s.last?.checked_sub(u64::from(b'0'))?)?;
    }
    None
}

// The next number of the line; none where the line has ended.
fn number(rt: &impl Input, buf: &mut [u8], s: &mut Source) -> Option<u64>
    ensures { StaysByte s.old s.new }
{
    if s.last == Some(SPACE) {
        return digits(rt, buf, s);
    }
    None
}

// How often the number stands: what follows its `*`, else once.
fn times(rt: &impl Input, buf: &mut [u8], s: &mut Source) -> Option<u64>
    ensures { StaysByte s.old s.new }
{
    if s.last == Some(TIMES) {
        return digits(rt, buf, s);
    }
    Some(1)
}

// One number, put at the front of the room as often as it stands; how often that is.
fn element(rt: &impl Input, buf: &mut [u8], s: &mut Source, room: &mut [u64]) -> Option<usize>
    ensures size { IfSome result (λ n. (0 < n) × (n ≤ length room.new)) }
    ensures byte { StaysByte s.old s.new }
{
    let value = number(rt, buf, s)?;
    let n = times(rt, buf, s)?;
    if n == 0 || (room.len() as u64) < n {
        return None;
    }
    room[..n as usize].fill(value);
    Some(n as usize)
}

// All numbers of the line; how many.
pub fn numbers(rt: &impl Input, buf: &mut [u8], s: &mut Source, out: &mut [u64]) -> Option<usize>
    ensures size { IfSome result (λ n. (n ≤ length out.new) × (line_ends s.new.last ≡ true)) }
    ensures byte { StaysByte s.old s.new }
{
    let mut at: usize = 0;
    // The place moves by what an element takes, so it is no count.
    while at < out.len() {
        if stream::line_ends(s.last) {
            return Some(at);
        }
        at += element(rt, buf, s, &mut out[at..])?;
    }
    None
}

// A word up to the next space or the line's end, and its length; too long a word is none.
pub fn word(rt: &impl Input, buf: &mut [u8], s: &mut Source, out: &mut [u8]) -> Option<usize>
    ensures size { IfSome result (λ n. n ≤ length out.new) }
    ensures byte { StaysByte s.old s.new }
{
    for i in 0..out.len() {
        let last = s.last;
        if last == Some(SPACE) || stream::line_ends(last) {
            return Some(i);
        }
        out[i] = u8::try_from(last?).ok()?;
        *s = stream::advance(rt, buf, *s);
    }
    None
}

pub fn same_word(a: &[u8], b: &[u8]) -> bool
    ensures { result ≡ same_word a.now b.now }
{
    a == b
}
