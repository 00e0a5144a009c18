// C's face of parse_header. C can't be handed a part of its own bytes by reference, so it is told which bytes and where.
ghost use Rattle.std.specs.Prelude.{◌≡◌, ◌-◌, take, drop};
ghost use Rattle.text.specs.Header.{begins_with_h, header_of};
ghost use Rattle.text.specs.Search.{Piece};
ghost use Rattle.face.specs.ParseHeader.{header_part, bytes_of};

const NEWLINE: u8 = 10;

// C gets it: where the header stands.
const TEXT: u64 = 0;

// C gets it.
const FALLBACK: u64 = 1;

#[repr(C)]
#[derive(Clone, Copy)]
pub struct HeaderPart {
    pub source: u64,
    pub place: usize,
    pub length: usize,
}

// The line from `at` to `end`; an empty one begins with nothing.
fn begins_with_h(text: &[u8], at: usize, end: usize) -> bool
    requires { Piece 10 text.now at end }
    ensures { result ≡ begins_with_h (take (end - at) (drop at text.now)) }
{
    at < end && text[at] == b'H'
}

#[unsafe(no_mangle)]
pub extern "C" fn gfaffix_parse_header(text: &[u8], fallback: &[u8]) -> HeaderPart
    ensures value { result ≡ header_part text.now fallback.now }
    ensures fallback_value { bytes_of result text.now fallback.now ≡ header_of text.now fallback.now }
{
    let mut at: usize = 0;
    loop {
        let end = text::pieces::piece_end(text, at, NEWLINE);
        if begins_with_h(text, at, end) {
            return HeaderPart {
                source: TEXT,
                place: at,
                length: end - at,
            };
        }
        if end == text.len() {
            return HeaderPart {
                source: FALLBACK,
                place: 0,
                length: fallback.len(),
            };
        }
        at = end + 1;
    }
}
