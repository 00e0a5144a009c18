// Standard input, byte by byte through a buffer.
ghost use Rattle.std.specs.Prelude.{◌≡◌};
ghost use Rattle.std.specs.Counts.{IsPrefixLen};
ghost use Rattle.cases.specs.Stream.{Standing, Advanced, Skipped, line_ends};

use std::io::Read;

// The unread part of the buffer, and the byte read last; none past the end of the input. A caller may put any number
// there: only 10 and none end a line.
#[derive(Clone, Copy)]
pub struct Source {
    pub at: usize,
    pub end: usize,
    pub last: Option<u64>,
}

pub const NEWLINE: u64 = 10;

// Standard input from where it stands, until buf is full, the input ends or a read fails; how many bytes stand at its front.
pub fn read_full(rt: &impl Input, buf: &mut [u8]) -> usize
    ensures { IsPrefixLen result buf.new }
{
    let mut reader = rt.reader();
    let mut at: usize = 0;
    // The place moves by what a read brings, so it is no count.
    while at < buf.len() {
        let Ok(n) = reader.read(&mut buf[at..]) else {
            return at;
        };
        if n == 0 {
            return at;
        }
        at += n;
    }
    at
}

// The buffer filled again, and its first byte.
fn refill(rt: &impl Input, buf: &mut [u8]) -> Source
    ensures { Standing result buf.new }
{
    let got = read_full(rt, buf);
    if got == 0 {
        return Source {
            at: 0,
            end: 0,
            last: None,
        };
    }
    Source {
        at: 1,
        end: got,
        last: Some(buf[0] as u64),
    }
}

// One byte more.
pub fn advance(rt: &impl Input, buf: &mut [u8], s: Source) -> Source
    ensures { Advanced buf.old s buf.new result }
{
    let at = s.at;
    if s.end <= at || buf.len() <= at {
        return refill(rt, buf);
    }
    Source {
        at: at + 1,
        end: s.end,
        last: Some(buf[at] as u64),
    }
}

pub fn line_ends(last: Option<u64>) -> bool
    ensures { result ≡ line_ends last }
{
    match last {
        Some(b) => b == NEWLINE,
        None => true,
    }
}

// To the end of the line.
pub fn skip_line(rt: &impl Input, buf: &mut [u8], s: Source) -> Source
    ensures { Skipped s result buf.new }
{
    let mut source = s;
    for turns in 0..1099511627776_u64 {
        if line_ends(source.last) {
            return source;
        }
        source = advance(rt, buf, source);
    }
    source
}
