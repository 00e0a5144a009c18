// The written header.
ghost use Rattle.std.specs.Prelude.{◌≡◌};
ghost use Rattle.text.specs.Header.{begins_with_h, header_of};

use crate::pieces::piece_end;

fn begins_with_h(line: &[u8]) -> bool
    ensures { result ≡ begins_with_h line.now }
{
    line.first() == Some(&b'H')
}

// The first line whose first byte is H, without its newline, as a part of the text; else the whole fallback.
pub fn header<'a>(text: &'a [u8], fallback: &'a [u8]) -> &'a [u8]
    ensures { result.now ≡ header_of text.now fallback.now }
{
    let mut at: usize = 0;
    loop {
        let end = piece_end(text, at, b'\n');
        if begins_with_h(&text[at..end]) {
            return &text[at..end];
        }
        if end == text.len() {
            return fallback;
        }
        at = end + 1;
    }
}
