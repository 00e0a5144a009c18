// How oriented nodes are written.
ghost use Rattle.std.specs.Prelude.{◌+◌, ◌^◌, ◌<◌, ◌≡◌, length};
ghost use Rattle.writing.specs.Filled.{Filled};
ghost use Rattle.writing.specs.Marks.{sign_of, link_end, arrow_of, walk_step};

use crate::put;
use handle::Handle;

// + and -, in links and paths.
pub fn sign_of(h: Handle) -> u8
    ensures { result ≡ sign_of h }
{
    if h.direction() == Handle::FORWARD {
        return b'+';
    }
    b'-'
}

// > and <, in walks.
pub fn arrow_of(h: Handle) -> u8
    ensures { result ≡ arrow_of h }
{
    if h.direction() == Handle::FORWARD {
        return b'>';
    }
    b'<'
}

pub fn fill_end(out: &mut [u8], at: usize, h: Handle) -> usize
    requires { at + length (link_end h) < 2 ^ 64 }
    ensures { Filled out.old at (link_end h) out.new result }
{
    let between = [b'\t', sign_of(h), b'\t'];
    let p = put::fill_number(out, at, h.id());
    put::fill_bytes(out, p, &between)
}

pub fn fill_step(out: &mut [u8], at: usize, h: Handle) -> usize
    requires { at + length (walk_step h) < 2 ^ 64 }
    ensures { Filled out.old at (walk_step h) out.new result }
{
    let p = put::fill_byte(out, at, arrow_of(h));
    put::fill_number(out, p, h.id())
}
