// The items of a case: a number, or an array, which is its length and then its elements. A shape has one byte for each
// item (docs/REPLAY.md, "Shapes").
ghost use Rattle.std.specs.Prelude.{◌≤◌, ◌≡◌, length, take, drop};
ghost use Rattle.cases.specs.declared.parts.Kind.{Kind};
ghost use Rattle.cases.specs.Parts.{kind_of, item_end, rest_of, elements_of, array_at, number_at, counts_at, used_at};

use events::Used;
use store::Counts;

// What an item is: a number, an array that is only read, text or the letters of a graph, bytes of room, room for
// numbers, more of it, and less, for an operation that needs much memory itself.
#[derive(Clone, Copy, PartialEq, Eq)]
pub enum Kind {
    Number,
    Array,
    Text,
    Bytes,
    Room,
    Wide,
    Small,
}

impl From<u8> for Kind {
    ghost from_gives = { λ b k. k ≡ kind_of b };

    fn from(b: u8) -> Kind {
        match b {
            b'n' => Kind::Number,
            b't' => Kind::Text,
            b'b' => Kind::Bytes,
            b'r' => Kind::Room,
            b'w' => Kind::Wide,
            b's' => Kind::Small,
            _ => Kind::Array,
        }
    }
}

// Where the item at a place ends; nothing where it runs past the numbers.
pub fn item_end<K: Into<Kind>>(numbers: &[u64], at: usize, kind: K) -> Option<usize>
    ensures { (this : Kind) × K.converts kind this × (result ≡ item_end this at (drop at numbers.now)) }
{
    let this = kind.into();
    if numbers.len() <= at {
        return None;
    }
    match this {
        Kind::Number => Some(at + 1),
        _ if ((numbers.len() - at - 1) as u64) < numbers[at] => None,
        _ => Some(at + (1 + numbers[at]) as usize),
    }
}

// The elements of the array at a place, as far as there are numbers.
pub fn elements(numbers: &[u64], at: usize) -> &[u64]
    ensures { result.now ≡ elements_of (drop at numbers.now) }
{
    if numbers.len() <= at {
        return &numbers[0..0];
    }
    let from = at + 1;
    if ((numbers.len() - from) as u64) < numbers[at] {
        return &numbers[from..];
    }
    let to = from + numbers[at] as usize;
    &numbers[from..to]
}

// Where item k begins.
fn place(numbers: &[u64], shape: &[u8], k: usize) -> usize
    ensures { drop result numbers.now ≡ rest_of (take k shape.now) numbers.now }
{
    let mut at: usize = 0;
    for i in 0..k {
        if shape.len() <= i {
            return at;
        }
        let Some(end) = item_end(numbers, at, shape[i]) else {
            return numbers.len();
        };
        at = end;
    }
    at
}

// Item k, an array.
pub fn array<'a>(numbers: &'a [u64], shape: &[u8], k: usize) -> &'a [u64]
    ensures { result.now ≡ array_at numbers.now shape.now k }
{
    let at = place(numbers, shape, k);
    elements(numbers, at)
}

// Item k, a number; 0 past the end.
pub fn number(numbers: &[u64], shape: &[u8], k: usize) -> u64
    ensures { result ≡ number_at numbers.now shape.now k }
{
    let at = place(numbers, shape, k);
    if at < numbers.len() {
        return numbers[at];
    }
    0
}

// The three counts of a graph, from item k on.
pub fn counts(numbers: &[u64], shape: &[u8], k: usize) -> Counts
    requires { k ≤ 255 }
    ensures { result ≡ counts_at numbers.now shape.now k }
{
    let nodes = number(numbers, shape, k);
    let letters = number(numbers, shape, k + 1);
    let links = number(numbers, shape, k + 2);
    Counts {
        nodes: nodes as usize,
        letters: letters as usize,
        links: links as usize,
    }
}

// The two counts of an event list or a table, from item k on.
pub fn used(numbers: &[u64], shape: &[u8], k: usize) -> Used
    requires { k ≤ 255 }
    ensures { result ≡ used_at numbers.now shape.now k }
{
    let rules = number(numbers, shape, k);
    let steps = number(numbers, shape, k + 1);
    Used {
        rules: rules as usize,
        steps: steps as usize,
    }
}
