// The driver: collapses one group after another until none is left.
#![tactic(auto)]

pub mod drive;

ghost use Rattle.std.specs.Prelude.{◌≡◌};

use events::Used;
use store::Counts;

// 01's number, how many collapses were made, and what is in use after them. C gets it.
#[repr(C)]
#[derive(Clone, Copy)]
pub struct Driven {
    pub number: u64,
    pub made: u64,
    pub counts: Counts,
    pub used: Used,
}

// No collapse was made, and the counts are as they were.
pub fn refuse(number: u64, c: Counts, u: Used) -> Driven
    ensures { result ≡ record { number = number; made = 0; counts = c; used = u } }
{
    Driven {
        number,
        made: 0,
        counts: c,
        used: u,
    }
}
