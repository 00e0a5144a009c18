// The run: read, collapse all, expand, write, check. Each stage ends in the next one.
ghost use Rattle.std.specs.Prelude.{◌≤◌, ◌≡◌, length};
ghost use Rattle.reading.specs.Reading.{store};
ghost use Rattle.checking.specs.CheckTransform.{lent};
ghost use Rattle.collapsing.specs.Outcome as collapsing;
ghost use Rattle.desk.specs.Desk.{told, finished, finish_outcome, refusal, goes_on, tell_outcome, expand_outcome_then, drive_then, lay_then, desk_outcome, status_of};

use crate::judging::judge;
use crate::{page, taking};
use events::Used;
use scanning::Verdict;
use store::Counts;

// What a refusal is of.
#[derive(Clone, Copy, PartialEq, Eq)]
pub enum Source {
    Text,
    Protected,
    Room,
}

// The number and what it is of, where it is not 0; the number that stopped the driver on its way, else 0; how much of the two rooms is to be
// written; the verdict, where it was asked for.
#[derive(Clone, Copy)]
pub struct Done<S = Option<Source>> {
    pub number: u64,
    pub source: S,
    pub stopped: u64,
    pub page: usize,
    pub table: usize,
    pub verdict: Verdict,
}

fn refuse(source: Source, number: u64) -> Done
    ensures { result ≡ refusal source number }
{
    let verdict = Verdict {
        number: 0,
        first: 0,
        second: 0,
    };
    Done {
        number,
        source: Some(source),
        stopped: 0,
        page: 0,
        table: 0,
        verdict,
    }
}

fn goes_on(protected: &[u64], number: u64) -> bool
    ensures { result ≡ goes_on protected.now number }
{
    match number {
        0 => true,
        7 | 11 => protected.len() <= 4096,
        _ => false,
    }
}

// The table after a page of `len` bytes, then the checker.
fn finish(
    len: usize,
    old_nodes: &[u64],
    letters: &[u8],
    old_links: &[u64],
    c: Counts,
    nodes: &[u64],
    links: &[u64],
    d: Counts,
    rules: &[u64],
    steps: &[u64],
    u: Used,
    protected: &[u64],
    check: bool,
    stopped: u64,
    table: &mut [u8],
) -> Done
    ensures table_after { finished result table.new ≡ finish_outcome len (lent old_nodes.now letters.now old_links.now c) (lent nodes.now letters.now links.now d) rules.now steps.now u protected.now check stopped table.old }
    ensures page_le_len { (result.page ≤ len) × (result.table ≤ length table.new) }
{
    let t = gfaffix::print_transformations::print_transformations(
        old_nodes, letters, old_links, c, rules, steps, u, table,
    );
    if t.number != 0 {
        return refuse(Source::Room, t.number);
    }
    let verdict = judge(
        check, old_nodes, letters, old_links, c, nodes, links, d, rules, steps, u, protected,
    );
    Done {
        number: 0,
        source: None,
        stopped,
        page: len,
        table: t.len,
        verdict,
    }
}

fn tell(
    text: &[u8],
    old_nodes: &[u64],
    letters: &[u8],
    old_links: &[u64],
    c: Counts,
    nodes: &[u64],
    links: &[u64],
    d: Counts,
    rules: &[u64],
    steps: &[u64],
    u: Used,
    protected: &[u64],
    check: bool,
    stopped: u64,
    page: &mut [u8],
    table: &mut [u8],
) -> Done
    ensures table_after { told result page.new table.new ≡ tell_outcome text.now (lent old_nodes.now letters.now old_links.now c) (lent nodes.now letters.now links.now d) rules.now steps.now u protected.now check stopped page.old table.old }
    ensures page_in_bounds { (result.page ≤ length page.new) × (result.table ≤ length table.new) }
{
    let p = page::print_page(
        text, old_nodes, letters, old_links, c, nodes, links, d, rules, steps, u, page,
    );
    if p.number != 0 {
        return refuse(Source::Room, p.number);
    }
    finish(
        p.len, old_nodes, letters, old_links, c, nodes, links, d, rules, steps, u, protected,
        check, stopped, table,
    )
}

fn expand_then(
    text: &[u8],
    old_nodes: &[u64],
    letters: &[u8],
    old_links: &[u64],
    c: Counts,
    nodes: &[u64],
    links: &[u64],
    d: Counts,
    event_rules: &[u64],
    event_steps: &[u64],
    u: Used,
    protected: &[u64],
    check: bool,
    stopped: u64,
    rules: &mut [u64],
    steps: &mut [u64],
    page: &mut [u8],
    table: &mut [u8],
) -> Done
    ensures table_after { told result page.new table.new ≡ expand_outcome_then text.now (lent old_nodes.now letters.now old_links.now c) (lent nodes.now letters.now links.now d) event_rules.now event_steps.now u protected.now check stopped rules.old steps.old page.old table.old }
    ensures page_in_bounds { (result.page ≤ length page.new) × (result.table ≤ length table.new) }
{
    let e = gfaffix::expand::expand(event_rules, event_steps, u, rules, steps);
    if e.number != 0 {
        return refuse(Source::Room, e.number);
    }
    tell(
        text, old_nodes, letters, old_links, c, nodes, links, d, rules, steps, e.used, protected,
        check, stopped, page, table,
    )
}

fn drive_then(
    text: &[u8],
    old_nodes: &[u64],
    letters: &[u8],
    old_links: &[u64],
    c: Counts,
    nodes: &mut [u64],
    links: &mut [u64],
    event_rules: &mut [u64],
    event_steps: &mut [u64],
    protected: &[u64],
    check: bool,
    rules: &mut [u64],
    steps: &mut [u64],
    page: &mut [u8],
    table: &mut [u8],
) -> Done
    ensures table_after { told result page.new table.new ≡ drive_then text.now (lent old_nodes.now letters.now old_links.now c) (collapsing.lent nodes.old links.old event_rules.old event_steps.old) protected.now check rules.old steps.old page.old table.old }
    ensures page_in_bounds { (result.page ≤ length page.new) × (result.table ≤ length table.new) }
{
    let none = Used { rules: 0, steps: 0 };
    let r = gfaffix::collapse_all::collapse_all(
        nodes,
        letters,
        links,
        c,
        event_rules,
        event_steps,
        none,
        protected,
    );
    let number = r.number;
    if !goes_on(protected, number) {
        return refuse(Source::Protected, number);
    }
    expand_then(
        text,
        old_nodes,
        letters,
        old_links,
        c,
        nodes,
        links,
        r.counts,
        event_rules,
        event_steps,
        r.used,
        protected,
        check,
        number,
        rules,
        steps,
        page,
        table,
    )
}

// The old graph, put at the front of the larger rooms.
fn lay_then(
    text: &[u8],
    old_nodes: &[u64],
    letters: &[u8],
    old_links: &[u64],
    c: Counts,
    nodes: &mut [u64],
    links: &mut [u64],
    event_rules: &mut [u64],
    event_steps: &mut [u64],
    protected: &[u64],
    check: bool,
    rules: &mut [u64],
    steps: &mut [u64],
    page: &mut [u8],
    table: &mut [u8],
) -> Done
    ensures table_after { told result page.new table.new ≡ lay_then text.now (lent old_nodes.now letters.now old_links.now c) (collapsing.lent nodes.old links.old event_rules.old event_steps.old) protected.now check rules.old steps.old page.old table.old }
    ensures page_in_bounds { (result.page ≤ length page.new) × (result.table ≤ length table.new) }
{
    if nodes.len() < old_nodes.len() {
        return refuse(Source::Room, 7);
    }
    if links.len() < old_links.len() {
        return refuse(Source::Room, 7);
    }
    taking::put_front(old_nodes, nodes);
    taking::put_front(old_links, links);
    drive_then(
        text,
        old_nodes,
        letters,
        old_links,
        c,
        nodes,
        links,
        event_rules,
        event_steps,
        protected,
        check,
        rules,
        steps,
        page,
        table,
    )
}

// The rooms for the old graph are as long as the graph may be large.
pub fn work(
    text: &[u8],
    protected: &[u64],
    check: bool,
    old_nodes: &mut [u64],
    letters: &mut [u8],
    old_links: &mut [u64],
    nodes: &mut [u64],
    links: &mut [u64],
    event_rules: &mut [u64],
    event_steps: &mut [u64],
    rules: &mut [u64],
    steps: &mut [u64],
    page: &mut [u8],
    table: &mut [u8],
) -> Done
    ensures table_after { told result page.new table.new ≡ desk_outcome text.now protected.now check (store old_nodes.old letters.old old_links.old) (collapsing.lent nodes.old links.old event_rules.old event_steps.old) rules.old steps.old page.old table.old }
    ensures page_in_bounds { (result.page ≤ length page.new) × (result.table ≤ length table.new) }
{
    let r = taking::take_in(text, old_nodes, letters, old_links);
    if r.number != 0 {
        return refuse(Source::Text, r.number);
    }
    lay_then(
        text,
        old_nodes,
        letters,
        old_links,
        r.counts,
        nodes,
        links,
        event_rules,
        event_steps,
        protected,
        check,
        rules,
        steps,
        page,
        table,
    )
}

// How a run ends, whatever its source is: 1 refused, also where the driver was stopped on its way; 3 where the checker
// found a fault; else 0.
pub fn status<S: Drop>(done: Done<S>) -> u64
    ensures value { result ≡ status_of done }
    ensures upper_bound { result ≤ 3 }
{
    if done.number != 0 {
        return 1;
    }
    if done.verdict.number != 0 {
        return 3;
    }
    if done.stopped != 0 {
        return 1;
    }
    0
}
