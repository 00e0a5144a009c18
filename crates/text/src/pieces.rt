// Bytes cut at a separator; a line's fields, which tabs part.
ghost use Rattle.std.specs.Prelude.{◌≡◌, ◌≤◌, eqb, leb, length};
ghost use Rattle.kit.specs.Loops.{any};
ghost use Rattle.text.specs.Pieces.{fields_of, field, is_line};
ghost use Rattle.text.specs.Search.{Piece};

// The place of the first separator at or after `from`, or the length.
pub fn piece_end(bytes: &[u8], from: usize, sep: u8) -> usize
    requires { from ≤ length bytes.now }
    ensures { Piece sep bytes.now from result }
{
    for i in from..bytes.len() {
        if bytes[i] == sep {
            return i;
        }
    }
    bytes.len()
}

// The field k, counted from 0; an empty part where there are fewer.
pub fn field(line: &[u8], k: usize) -> &[u8]
    ensures { result.now ≡ field k line.now }
{
    let mut from: usize = 0;
    for _ in 0..k {
        let to = piece_end(line, from, b'\t');
        if to == line.len() {
            return &line[to..];
        }
        from = to + 1;
    }
    let to = piece_end(line, from, b'\t');
    &line[from..to]
}

// Whether there are n fields or more; there always is one.
pub fn has_fields(line: &[u8], n: usize) -> bool
    ensures { result ≡ leb n (length (fields_of line.now)) }
{
    let mut from: usize = 0;
    for _ in 1..n {
        let to = piece_end(line, from, b'\t');
        if to == line.len() {
            return false;
        }
        from = to + 1;
    }
    true
}

pub fn is_line(line: &[u8], letter: u8) -> bool
    ensures { result ≡ is_line letter line.now }
{
    piece_end(line, 0, b'\t') == 1 && line[0] == letter
}

pub fn has_return(line: &[u8]) -> bool
    ensures { result ≡ any (eqb 13) line.now }
{
    piece_end(line, 0, b'\r') < line.len()
}
