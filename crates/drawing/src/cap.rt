// Bytes put into a room from a place on, counted no further than `stop`; each answers the place after them.
ghost use Rattle.std.specs.Prelude.{◌≡◌, [], ◌∷◌, ◌++◌};
ghost use Rattle.text.specs.Pieces.{field};
ghost use Rattle.drawing.specs.Capped.{capped, Open, Capped};
ghost use Rattle.drawing.specs.Drawn.{fields_text};

use text::pieces::field;
use writing::put;

pub fn cap(stop: usize, n: usize) -> usize
    ensures { result ≡ capped stop n }
{
    if stop < n {
        return stop;
    }
    n
}

pub fn add_bytes(out: &mut [u8], stop: usize, at: usize, bytes: &[u8]) -> usize
    requires { Open stop out.old at }
    ensures { Capped stop out.old at bytes.now out.new result }
{
    let end = put::fill_bytes(out, at, bytes);
    cap(stop, end)
}

fn add_field(line: &[u8], k: usize, out: &mut [u8], stop: usize, at: usize) -> usize
    requires { Open stop out.old at }
    ensures { Capped stop out.old at (field k line.now ++ (9 ∷ [])) out.new result }
{
    let end = add_bytes(out, stop, at, field(line, k));
    add_bytes(out, stop, end, b"\t")
}

// The first n fields, each with the tab after it. A line's letter is its first field.
pub fn add_fields(line: &[u8], n: usize, out: &mut [u8], stop: usize, at: usize) -> usize
    requires { Open stop out.old at }
    ensures { Capped stop out.old at (fields_text 0 n line.now) out.new result }
{
    let mut place = at;
    for k in 0..n {
        place = add_field(line, k, out, stop, place);
    }
    place
}
