// Records in flat slices of numbers, the plain loops over them, text being written and decimal numbers:
// the shared definitions (specs/) and laws (proofs/), what 01 refuses for, and the writers of a number and of bytes.
#![tactic(auto)]

ghost use Rattle.std.specs.Prelude.{◌≡◌, ◌+◌, ◌≤◌, length};
ghost use Rattle.kit.specs.Put.{Put};
ghost use Rattle.kit.specs.Decimal.{decimal};
ghost use Rattle.kit.specs.Refusal.{number};

// What 01 refuses for, in the order of its numbers, from 1 to 13.
#[derive(Clone, Copy, PartialEq, Eq)]
pub enum Refusal {
    Shape,
    Name,
    Letter,
    Overlap,
    Twice,
    Absent,
    Room,
    Group,
    Prefix,
    Neighbours,
    Ids,
    Later,
    Malformed,
}

impl Refusal {
    pub fn number(self) -> u64
        ensures { result ≡ number self }
    {
        match self {
            Self::Shape => 1,
            Self::Name => 2,
            Self::Letter => 3,
            Self::Overlap => 4,
            Self::Twice => 5,
            Self::Absent => 6,
            Self::Room => 7,
            Self::Group => 8,
            Self::Prefix => 9,
            Self::Neighbours => 10,
            Self::Ids => 11,
            Self::Later => 12,
            Self::Malformed => 13,
        }
    }
}

// How many digits n has.
pub fn width(n: u64) -> usize
    ensures { result ≡ length (decimal n) }
{
    let mut w: usize = 1;
    let mut x = n;
    // The number is divided: nothing is counted towards an end that is known.
    while 10 <= x {
        x = x / 10;
        w += 1;
    }
    w
}

// Writes n in decimal from `at` on, the last digit first; the place after it.
pub fn put_decimal(out: &mut [u8], at: usize, n: u64) -> usize
    requires { at + length (decimal n) ≤ length out.old }
    ensures { Put out.old at (decimal n) out.new result }
{
    let w = width(n);
    let mut k = at + w - 1;
    let mut x = n;
    // The same.
    while 10 <= x {
        out[k] = 48 + (x % 10) as u8;
        x = x / 10;
        k -= 1;
    }
    out[k] = 48 + (x % 10) as u8;
    at + w
}

// Writes bytes from `at` on; the place after them.
pub fn put_bytes(out: &mut [u8], at: usize, bytes: &[u8]) -> usize
    requires { at + length bytes.now ≤ length out.old }
    ensures { Put out.old at bytes.now out.new result }
{
    for i in 0..bytes.len() {
        out[at + i] = bytes[i];
    }
    at + bytes.len()
}
