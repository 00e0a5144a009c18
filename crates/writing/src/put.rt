// Bytes and numbers, put into a lent room from a place on; each answers the place after them.
ghost use Rattle.std.specs.Prelude.{◌+◌, ◌^◌, ◌<◌, [], ◌∷◌, length};
ghost use Rattle.kit.specs.Put.{Put};
ghost use Rattle.kit.specs.Decimal.{decimal};
ghost use Rattle.writing.specs.Filled.{Filled};

pub fn put_byte(out: &mut [u8], at: usize, b: u8) -> usize
    requires { at < length out.old }
    ensures { Put out.old at (b ∷ []) out.new result }
{
    out[at] = b;
    at + 1
}

// The same where the room may be short: only what fits is put, but the place after it is answered all the same.
// So one function measures, in an empty room, and writes.
pub fn fill_byte(out: &mut [u8], at: usize, b: u8) -> usize
    requires { at + 1 < 2 ^ 64 }
    ensures { Filled out.old at (b ∷ []) out.new result }
{
    if out.len() <= at {
        return at + 1;
    }
    put_byte(out, at, b)
}

pub fn fill_bytes(out: &mut [u8], at: usize, bytes: &[u8]) -> usize
    requires { at + length bytes.now < 2 ^ 64 }
    ensures { Filled out.old at bytes.now out.new result }
{
    let end = at + bytes.len();
    if out.len() < end {
        return end;
    }
    kit::put_bytes(out, at, bytes)
}

pub fn fill_number(out: &mut [u8], at: usize, n: u64) -> usize
    requires { at + length (decimal n) < 2 ^ 64 }
    ensures { Filled out.old at (decimal n) out.new result }
{
    let end = at + kit::width(n);
    if out.len() < end {
        return end;
    }
    kit::put_decimal(out, at, n)
}
