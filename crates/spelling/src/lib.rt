// Spelling a walk. A step is a packed oriented node.
// Who calls the writer has measured: a long walk's letters can exceed any room.
#![tactic(auto)]

ghost use Rattle.std.specs.Prelude.{◌+◌, ◌*◌, ◌≤◌, ◌≡◌, [], ◌++◌, length, drop};
ghost use Rattle.kit.specs.Put.{Put};
ghost use Rattle.store.specs.Graph.{handle, nodes_of, links_of, graph_of};
ghost use Rattle.store.specs.Views.{spell};
ghost use Rattle.affix.specs.Prefix.{handles_of};
ghost use Rattle.affix.specs.Reading.{Readable};
ghost use Rattle.spelling.specs.Spelling.{all_stored, first_gap, spell_walk};
ghost use Rattle.spelling.specs.Measure.{within, walk_len};

use handle::Handle;
use store::Counts;

pub fn all_stored(nodes: &[u64], count: usize, walk: &[u64]) -> bool
    requires { 4 * count ≤ length nodes.now }
    ensures { result ≡ all_stored (nodes_of count nodes.now) (handles_of walk.now) }
{
    walk.iter()
        .map(|step| Handle { packed: *step })
        .all(|h| store::stored_from(nodes, count, 0, h.id()))
}

// The place of the first step that no stored link leads to from the one before.
pub fn first_gap(links: &[u64], count: usize, walk: &[u64]) -> Option<usize>
    requires { 3 * count ≤ length links.now }
    ensures { result ≡ first_gap (links_of count links.now) (handles_of walk.now) }
{
    for i in 1..walk.len() {
        let u = Handle {
            packed: walk[i - 1],
        };
        let v = Handle { packed: walk[i] };
        // 01 names the form: a lookup taken apart at once.
        let Some(_) = store::find_link(links, count, u, v) else {
            return Some(i);
        };
    }
    None
}

// How many letters the walk has, if that is at most `room`.
pub fn spelled_len(nodes: &[u64], count: usize, walk: &[u64], room: usize) -> Option<usize>
    requires { 4 * count ≤ length nodes.now }
    ensures { result ≡ within room (walk_len (nodes_of count nodes.now) (handles_of walk.now)) }
{
    let mut n: usize = 0;
    for i in 0..walk.len() {
        let h = Handle { packed: walk[i] };
        let len = store::node_len(nodes, count, h.id()) as usize;
        if room - n < len {
            return None;
        }
        n += len;
    }
    Some(n)
}

// Puts the letters of a step, as oriented, from `at` on; the place after them.
fn put_letters(nodes: &[u64], text: &[u8], c: Counts, step: u64, at: usize, out: &mut [u8]) -> usize
    requires readable { Readable nodes.now text.now c }
    requires step_in_bounds { at + length (spell (graph_of nodes.now text.now [] c) (handle step)) ≤ length out.old }
    ensures { Put out.old at (spell (graph_of nodes.now text.now [] c) (handle step)) out.new result }
{
    let r = affix::look_up(nodes, c.nodes, step);
    let len = r.len;
    for i in 0..len {
        out[at + i] = affix::letter(text, r, i);
    }
    at + len
}

// Puts the walk's letters at the front of `out`.
pub fn write_spelling(nodes: &[u64], text: &[u8], c: Counts, walk: &[u64], out: &mut [u8])
    requires readable { Readable nodes.now text.now c }
    requires walk_in_bounds { length (spell_walk (graph_of nodes.now text.now [] c) (handles_of walk.now)) ≤ length out.old }
    ensures { out.new ≡ spell_walk (graph_of nodes.now text.now [] c) (handles_of walk.now) ++ drop (length (spell_walk (graph_of nodes.now text.now [] c) (handles_of walk.now))) out.old }
{
    let mut at: usize = 0;
    for i in 0..walk.len() {
        at = put_letters(nodes, text, c, walk[i], at, out);
    }
}
