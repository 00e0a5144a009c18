// What is wrong with a case, by its shape.
ghost use Rattle.std.specs.Prelude.{◌≡◌};
ghost use Rattle.cases.specs.Faults.{fault_numbered, most_of, length_fault, byte_fault, sooner_of, item_fault, fault_of};

use crate::parts;
use crate::parts::Kind;

// In the order of the tests.
#[derive(Clone, Copy, PartialEq, Eq)]
pub enum Fault {
    BadNumbers,
    BadEnd,
    BadLetters,
    BadRoom,
}

// By their places; any number past them is the last.
impl From<u64> for Fault {
    ghost from_gives = { λ n fault. fault ≡ fault_numbered n };

    fn from(n: u64) -> Fault {
        match n {
            0 => Fault::BadNumbers,
            1 => Fault::BadEnd,
            2 => Fault::BadLetters,
            _ => Fault::BadRoom,
        }
    }
}

// How many elements of an array can be lent.
fn most(kind: Kind) -> usize
    ensures { result ≡ most_of kind }
{
    match kind {
        Kind::Text | Kind::Wide => 131072,
        Kind::Bytes | Kind::Room => 65536,
        Kind::Small => 16384,
        Kind::Number | Kind::Array => 393216,
    }
}

fn length_fault(kind: Kind, n: usize) -> Option<Fault>
    ensures { result ≡ length_fault kind n }
{
    if n <= most(kind) {
        return None;
    }
    match kind {
        Kind::Text => Some(Fault::BadLetters),
        _ => Some(Fault::BadRoom),
    }
}

fn byte_fault(elements: &[u64]) -> Option<Fault>
    ensures { result ≡ byte_fault elements.now }
{
    for i in 0..elements.len() {
        if 255 < elements[i] {
            return Some(Fault::BadLetters);
        }
    }
    None
}

// The test that comes first.
fn sooner(a: Option<Fault>, b: Option<Fault>) -> Option<Fault>
    ensures { result ≡ sooner_of a b }
{
    match (a, b) {
        (Some(f), Some(g)) if (g as u8) < f as u8 => b,
        (Some(_), _) => a,
        (None, _) => b,
    }
}

fn item_fault(kind: Kind, elements: &[u64]) -> Option<Fault>
    ensures { result ≡ item_fault kind elements.now }
{
    let long = length_fault(kind, elements.len());
    match kind {
        Kind::Number => None,
        Kind::Text | Kind::Bytes => sooner(long, byte_fault(elements)),
        _ => long,
    }
}

pub fn first_fault(numbers: &[u64], shape: &[u8]) -> Option<Fault>
    ensures { result ≡ fault_of shape.now numbers.now }
{
    let mut worst = None;
    let mut at: usize = 0;
    for i in 0..shape.len() {
        let kind = Kind::from(shape[i]);
        let Some(end) = parts::item_end(numbers, at, kind) else {
            return Some(Fault::BadNumbers);
        };
        worst = sooner(worst, item_fault(kind, parts::elements(numbers, at)));
        at = end;
    }
    if at < numbers.len() {
        return Some(Fault::BadEnd);
    }
    worst
}
