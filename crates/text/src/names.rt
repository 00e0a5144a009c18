// Segment names.
ghost use Rattle.std.specs.Prelude.{◌≡◌};
ghost use Rattle.text.specs.Names.{name_id};

use handle::Handle;

// The id that a name says, 0 where it is none. The number only grows from digit to digit, so that the first one above the
// range is the last one made.
#[tactic(auto, using(crate::proofs::Naming::id_leading))]
pub fn name_id(bytes: &[u8]) -> u64
    ensures { result ≡ name_id bytes.now }
{
    if bytes.is_empty() {
        return 0;
    }
    if bytes[0] == b'0' {
        return 0;
    }
    let mut id: u64 = 0;
    for &b in bytes {
        if !b.is_ascii_digit() {
            return 0;
        }
        id = id * 10 + (b - b'0') as u64;
        if Handle::MAX_ID < id {
            return 0;
        }
    }
    id
}
