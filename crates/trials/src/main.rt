// The program's runs for the tests: one to a line of standard input, whose words are parted by spaces. What a run writes to
// standard error stands among the rest. A line that begins with `few ` has room for two events.
#![tactic(auto)]

ghost use Rattle.std.specs.Prelude.{◌≤◌, length};
ghost use Rattle.std.specs.Counts.{IsPrefixLen};

use cases::stream::read_full;
use std::io;
use std::rt::Files;
use text::pieces::piece_end;

const NEWLINE: u8 = b'\n';

const SPACE: u8 = b' ';

fn parted(b: u8) -> u8 {
    if b == SPACE {
        return 0;
    }
    b
}

// The bytes of a line with each space turned into a 0, and a 0 at the end; how many.
fn cut(line: &[u8], words: &mut [u8]) -> usize
    ensures { IsPrefixLen result words.new }
{
    if words.len() <= line.len() {
        return 0;
    }
    for i in 0..line.len() {
        words[i] = parted(line[i]);
    }
    words[line.len()] = 0;
    line.len() + 1
}

// Where the words begin: after `few `.
fn start(line: &[u8]) -> usize
    ensures { result ≤ length line.now }
{
    if line.len() < 4 {
        return 0;
    }
    if cases::input::same_word(&line[..4], b"few ") {
        return 4;
    }
    0
}

fn most(from: usize) -> usize {
    if from == 0 {
        return 8192;
    }
    2
}

fn run(rt: &(impl Files + Input + Print), line: &[u8], most: usize) -> io::Result<()> {
    // No heap: the room is of fixed size.
    let mut words = [0u8; 4096];
    rt.write_all(b"$ gfaffix ")?;
    rt.write_all(line)?;
    rt.write_all(b"\n")?;
    let n = cut(line, &mut words);
    let status = front::run::run(rt, &words[..n], rt, rt, most);
    rt.write_all(b"status ")?;
    rt.println(status)
}

fn one(rt: &(impl Files + Input + Print), line: &[u8]) -> io::Result<()> {
    if line.len() == 0 {
        return Ok(());
    }
    if line[0] == b'#' {
        rt.write_all(line)?;
        return rt.write_all(b"\n");
    }
    let from = start(line);
    run(rt, &line[from..], most(from))
}

fn all(rt: &(impl Files + Input + Print), text: &[u8]) -> io::Result<()> {
    let mut at: usize = 0;
    loop {
        let end = piece_end(text, at, NEWLINE);
        one(rt, &text[at..end])?;
        if end == text.len() {
            return Ok(());
        }
        at = end + 1;
    }
}

fn main(rt: HostRuntime) -> io::Result<()> {
    // No heap: the room is of fixed size.
    let mut room = [0u8; 32768];
    let n = read_full(&rt, &mut room);
    all(&rt, &room[..n])
}
