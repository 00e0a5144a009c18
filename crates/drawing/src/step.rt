// Steps of new paths and walks, one by one.
ghost use Rattle.std.specs.Prelude.{◌+◌, ◌^◌, ◌<◌, ◌≡◌, [], ◌∷◌, length};
ghost use Rattle.writing.specs.Filled.{Filled};
ghost use Rattle.writing.specs.Marks.{path_step};
ghost use Rattle.drawing.specs.Capped.{Open};
ghost use Rattle.drawing.specs.Drawn.{step_text, later, Drawn};

use crate::cap::cap;
use handle::Handle;
use writing::{marks, put};

// Where the next step goes, and how it is written. The mark is a number and no enum: any may be handed in, and comes
// back where there is no step.
#[derive(Clone, Copy)]
pub struct Pen {
    pub place: usize,
    pub mark: u64,
}

impl Pen {
    // A walk's step, a path's first one, a path's later one; any other number is a later one's too.
    pub const WALK: u64 = 0;

    pub const FIRST: u64 = 1;

    pub const LATER: u64 = 2;
}

fn later(mark: u64) -> u64
    ensures { result ≡ later mark }
{
    match mark {
        Pen::WALK => Pen::WALK,
        _ => Pen::LATER,
    }
}

fn fill_path_step(out: &mut [u8], at: usize, h: Handle) -> usize
    requires { at + length (path_step h) < 2 ^ 64 }
    ensures { Filled out.old at (path_step h) out.new result }
{
    let end = put::fill_number(out, at, h.id());
    put::fill_byte(out, end, marks::sign_of(h))
}

fn fill_step(out: &mut [u8], at: usize, mark: u64, h: Handle) -> usize
    requires { at + length (step_text mark h) < 2 ^ 64 }
    ensures { Filled out.old at (step_text mark h) out.new result }
{
    match mark {
        Pen::WALK => marks::fill_step(out, at, h),
        Pen::FIRST => fill_path_step(out, at, h),
        _ => {
            let end = put::fill_byte(out, at, b',');
            fill_path_step(out, end, h)
        }
    }
}

pub fn add_step(out: &mut [u8], stop: usize, pen: Pen, h: Handle) -> Pen
    requires { Open stop out.old pen.place }
    ensures { Drawn stop out.old pen (h ∷ []) out.new result }
{
    let end = fill_step(out, pen.place, pen.mark, h);
    Pen {
        place: cap(stop, end),
        mark: later(pen.mark),
    }
}
