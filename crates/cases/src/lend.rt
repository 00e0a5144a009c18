// The arrays that an operation is lent: an item of a case put at the front of an array, and that part handed back. As
// much of it as there is room for.
ghost use Rattle.std.specs.Prelude.{◌≡◌, map, length, take};
ghost use Rattle.cases.specs.Parts.{array_at, low_byte};

use crate::parts;

fn copy<'a>(from: &[u64], to: &'a mut [u64]) -> &'a mut [u64]
    ensures { result.now ≡ take (length to.old) from.now }
{
    let n = from.len().min(to.len());
    to[..n].copy_from_slice(&from[..n]);
    &mut to[..n]
}

// As bytes, each number's lowest. A conversion of each, which no method of a slice makes.
fn narrow<'a>(from: &[u64], to: &'a mut [u8]) -> &'a mut [u8]
    ensures { result.now ≡ map low_byte (take (length to.old) from.now) }
{
    let n = from.len().min(to.len());
    for i in 0..n {
        to[i] = (from[i] % 256) as u8;
    }
    &mut to[..n]
}

// Bytes as numbers, one by one as above.
pub fn widen<'a>(from: &[u8], to: &'a mut [u64]) -> &'a mut [u64]
    ensures { result.now ≡ take (length to.old) from.now }
{
    let n = from.len().min(to.len());
    for i in 0..n {
        to[i] = from[i] as u64;
    }
    &mut to[..n]
}

pub fn numbers<'a>(given: &[u64], shape: &[u8], k: usize, to: &'a mut [u64]) -> &'a mut [u64]
    ensures { result.now ≡ take (length to.old) (array_at given.now shape.now k) }
{
    copy(parts::array(given, shape, k), to)
}

pub fn bytes<'a>(given: &[u64], shape: &[u8], k: usize, to: &'a mut [u8]) -> &'a mut [u8]
    ensures { result.now ≡ map low_byte (take (length to.old) (array_at given.now shape.now k)) }
{
    narrow(parts::array(given, shape, k), to)
}
