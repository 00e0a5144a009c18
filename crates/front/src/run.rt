// A run, stage by stage: words, graph's text, protected list, work, what is written. Each stage ends in the next one. The
// answer is the status.
ghost use Rattle.std.specs.Prelude.{◌≤◌, ◌≡◌, true, is_some, length, IfOk};
ghost use Rattle.request.specs.Words.{words_of};
ghost use Rattle.request.specs.Faults.{fault_of};

use crate::files::Unsaved;
use crate::{files, say};
use cases::input::same_word;
use desk::work::{Done, Source, status};
use kit::Refusal;
use request::ask::Role;
use request::{ask, ids};
use scanning::Verdict;
use std::io;
use std::rt::Files;

// The program's exit status, a number as the system takes it.
const REFUSED: u64 = 1;

// The same.
const UNUSABLE: u64 = 2;

// How many events there is room for.
const EVENTS: usize = 8192;

fn print_verdict(out: &impl Print, v: Verdict) -> io::Result<()> {
    out.write_all(b"verdict ")?;
    out.print(v.number)?;
    out.write_all(b" ")?;
    out.print(v.first)?;
    out.write_all(b" ")?;
    out.print(v.second)?;
    out.write_all(b"\n")
}

// What goes to standard output: the graph, the table, the verdict, each where it is asked for there.
fn print(words: &[u8], out: &impl Print, page: &[u8], table: &[u8], v: Verdict) -> io::Result<()> {
    if ask::is_standard(ask::first(words, Role::Out)) {
        out.write_all(page)?;
    }
    if same_word(ask::first(words, Role::Table), b"-") {
        out.write_all(table)?;
    }
    if ask::count(words, Role::Check) == 0 {
        return Ok(());
    }
    print_verdict(out, v)
}

// The result is out; how it came about.
fn conclude(words: &[u8], err: &impl Print, d: Done) -> u64
    ensures { result ≤ 3 }
{
    if d.stopped != 0 {
        say::stopped(err, ask::first(words, Role::Graph), d.stopped);
    }
    status(d)
}

fn write(
    rt: &impl Files,
    words: &[u8],
    out: &impl Print,
    err: &impl Print,
    page: &[u8],
    table: &[u8],
    d: Done,
) -> u64
    ensures { result ≤ 3 }
{
    let out_name = ask::first(words, Role::Out);
    let table_name = ask::first(words, Role::Table);
    if let Err(unsaved) = files::save(rt, out_name, page, table_name, table) {
        match unsaved {
            Unsaved::Out(e) => say::unwritable(err, out_name, e),
            Unsaved::Table(e) => say::unwritable(err, table_name, e),
        }
        return UNUSABLE;
    }
    if let Err(e) = print(words, out, page, table, d.verdict) {
        say::unwritable(err, b"standard output", e);
        return UNUSABLE;
    }
    conclude(words, err, d)
}

fn refuse(words: &[u8], err: &impl Print, source: Source, number: u64) -> u64
    ensures { result ≤ 3 }
{
    let role = match source {
        Source::Protected => Role::Ids,
        Source::Text | Source::Room => Role::Graph,
    };
    say::refused(err, ask::first(words, role), source, number);
    REFUSED
}

// The old graph's rooms are 01's limits of the program; the others are larger, so that a graph at them can be collapsed.
fn work(
    rt: &impl Files,
    words: &[u8],
    text: &[u8],
    protected: &[u64],
    out: &impl Print,
    err: &impl Print,
    most: usize,
) -> u64
    ensures { result ≤ 3 }
{
    let check = ask::count(words, Role::Check) != 0;
    let events = 4 * most.min(EVENTS);
    // No heap: the room is of fixed size.
    let mut old_nodes = [0u64; 4096];
    let mut letters = [0u8; 16384];
    let mut old_links = [0u64; 6144];
    let mut nodes = [0u64; 32768];
    let mut links = [0u64; 49152];
    let mut event_rules = [0u64; 32768];
    let mut event_steps = [0u64; 32768];
    let mut rules = [0u64; 32768];
    let mut steps = [0u64; 65536];
    let mut page = [0u8; 524288];
    let mut table = [0u8; 262144];
    let d = desk::work::work(
        text,
        protected,
        check,
        &mut old_nodes,
        &mut letters,
        &mut old_links,
        &mut nodes,
        &mut links,
        &mut event_rules[..events],
        &mut event_steps,
        &mut rules,
        &mut steps,
        &mut page,
        &mut table,
    );
    if let Some(source) = d.source {
        return refuse(words, err, source, d.number);
    }
    let p = d.page;
    let t = d.table;
    write(rt, words, out, err, &page[..p], &table[..t], d)
}

// Why there is no protected list: its file cannot be read, or what it says is refused.
#[derive(Drop)]
enum Unlisted {
    Unread(io::Error),
    Refused(Refusal),
}

// The protected list from its file.
fn read_ids(rt: &(impl Files + Input), name: &[u8], room: &mut [u64]) -> Result<usize, Unlisted>
    ensures { IfOk result (λ n. n ≤ length room.new) }
{
    // No heap: the room is of fixed size.
    let mut bytes = [0u8; 65537];
    let n = files::read(rt, name, &mut bytes).map_err(Unlisted::Unread)?;
    if 65536 < n {
        return Err(Unlisted::Refused(Refusal::Room));
    }
    ids::list(&bytes[..n], room).map_err(Unlisted::Refused)
}

fn with_ids(
    rt: &(impl Files + Input),
    words: &[u8],
    text: &[u8],
    out: &impl Print,
    err: &impl Print,
    most: usize,
) -> u64
    ensures { result ≤ 3 }
{
    // No heap: the room is of fixed size.
    let mut room = [0u64; 4096];
    let name = ask::first(words, Role::Ids);
    if name.is_empty() {
        return work(rt, words, text, &room[..0], out, err, most);
    }
    match read_ids(rt, name, &mut room) {
        Ok(n) => work(rt, words, text, &room[..n], out, err, most),
        Err(Unlisted::Unread(e)) => {
            say::unreadable(err, name, e);
            UNUSABLE
        }
        Err(Unlisted::Refused(r)) => refuse(words, err, Source::Protected, r.number()),
    }
}

// A byte more than the program takes is read, so that a longer text is seen.
fn with_text(
    rt: &(impl Files + Input),
    words: &[u8],
    out: &impl Print,
    err: &impl Print,
    most: usize,
) -> u64
    ensures { result ≤ 3 }
{
    // No heap: the room is of fixed size.
    let mut bytes = [0u8; 65537];
    let name = ask::first(words, Role::Graph);
    match files::read(rt, name, &mut bytes) {
        Ok(n) => with_ids(rt, words, &bytes[..n], out, err, most),
        Err(e) => {
            say::unreadable(err, name, e);
            UNUSABLE
        }
    }
}

// `most` is how many events the driver has room for. Words with a fault end in 2, whatever the files hold.
pub fn run(
    rt: &(impl Files + Input),
    words: &[u8],
    out: &impl Print,
    err: &impl Print,
    most: usize,
) -> u64
    ensures { (result ≤ 3) × ((is_some (fault_of (words_of words.now)) ≡ true) → result ≡ 2) }
{
    if let Some(fault) = ask::first_fault(words) {
        say::faulty(err, words, fault);
        return UNUSABLE;
    }
    with_text(rt, words, out, err, most)
}

// The words are more than the program takes.
pub fn too_long(err: &impl Print) -> u64
    ensures { result ≡ 2 }
{
    say::too_long(err);
    UNUSABLE
}
