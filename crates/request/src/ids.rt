// The protected list: one id to a line.
ghost use Rattle.std.specs.Prelude.{◌+◌, ◌≤◌, ◌≡◌, length, IfOk};
ghost use Rattle.std.proofs.lemmas.List.Edits.{sets};
ghost use Rattle.request.specs.Ids.{is_no_id, any_no_id, said, ids_of, listed, list_outcome};
ghost use Rattle.kit.specs.Put.{Put};
ghost use Rattle.text.specs.Pieces.{lines_of};

use kit::Refusal;
use text::names::name_id;
use text::pieces::piece_end;

const NEWLINE: u8 = 10;

// Empty lines are passed over.
fn is_no_id(line: &[u8]) -> bool
    ensures { result ≡ is_no_id line.now }
{
    !line.is_empty() && name_id(line) == 0
}

fn any_no_id(text: &[u8]) -> bool
    ensures { result ≡ any_no_id (lines_of text.now) }
{
    let mut at: usize = 0;
    loop {
        let end = piece_end(text, at, NEWLINE);
        if is_no_id(&text[at..end]) {
            return true;
        }
        if end == text.len() {
            return false;
        }
        at = end + 1;
    }
}

// How many a line says: one, or none.
fn says(line: &[u8]) -> usize
    ensures { result ≡ length (said line.now) }
{
    usize::from(!line.is_empty())
}

fn count(text: &[u8]) -> usize
    ensures { result ≡ length (ids_of (lines_of text.now)) }
{
    let mut n: usize = 0;
    let mut at: usize = 0;
    loop {
        let end = piece_end(text, at, NEWLINE);
        n += says(&text[at..end]);
        if end == text.len() {
            return n;
        }
        at = end + 1;
    }
}

fn put_id(line: &[u8], ids: &mut [u64], i: usize) -> usize
    requires { i + length (said line.now) ≤ length ids.old }
    ensures { Put ids.old i (said line.now) ids.new result }
{
    if line.is_empty() {
        return i;
    }
    ids[i] = name_id(line);
    i + 1
}

fn put(text: &[u8], ids: &mut [u64])
    requires { length (ids_of (lines_of text.now)) ≤ length ids.old }
    ensures { ids.new ≡ sets ids.old 0 (ids_of (lines_of text.now)) }
{
    let mut i: usize = 0;
    let mut at: usize = 0;
    loop {
        let end = piece_end(text, at, NEWLINE);
        i = put_id(&text[at..end], ids, i);
        if end == text.len() {
            return;
        }
        at = end + 1;
    }
}

// The ids at the front of the room, and how many. Refused for a line that is no id, then where there are more than the room
// is for; a refusal changes nothing.
pub fn list(text: &[u8], ids: &mut [u64]) -> Result<usize, Refusal>
    ensures ids_after { listed result ids.new ≡ list_outcome (lines_of text.now) ids.old }
    ensures count_in_bounds { IfOk result (λ n. n ≤ length ids.new) }
{
    if any_no_id(text) {
        return Err(Refusal::Name);
    }
    let n = count(text);
    if ids.len() < n {
        return Err(Refusal::Room);
    }
    put(text, ids);
    Ok(n)
}
