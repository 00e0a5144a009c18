// Letters, as 01 "Nodes, letters, links" has them: complements by a table, upper case, and the tests.
#![tactic(auto)]

ghost use Rattle.std.specs.Prelude.{◌≡◌};
ghost use Rattle.letters.specs.Letters.{complement_of, is_letter, upper_of, same_letter, is_base};
ghost use Rattle.letters.specs.Sequences.{all_letters};

// Each byte's complement, 0 where it is no letter; 16 places to a line.
const COMPLEMENT: [u8; 256] = *b"\
    \0\0\0\0\0\0\0\0\0\0\0\0\0\0\0\0\
    \0\0\0\0\0\0\0\0\0\0\0\0\0\0\0\0\
    \0\0\0\0\0\0\0\0\0\0\0\0\0\0\0\0\
    \0\0\0\0\0\0\0\0\0\0\0\0\0\0\0\0\
    \0T\0G\0\0\0C\0\0\0\0\0\0N\0\
    \0\0\0\0A\0\0\0\0\0\0\0\0\0\0\0\
    \0t\0g\0\0\0c\0\0\0\0\0\0n\0\
    \0\0\0\0a\0\0\0\0\0\0\0\0\0\0\0\
    \0\0\0\0\0\0\0\0\0\0\0\0\0\0\0\0\
    \0\0\0\0\0\0\0\0\0\0\0\0\0\0\0\0\
    \0\0\0\0\0\0\0\0\0\0\0\0\0\0\0\0\
    \0\0\0\0\0\0\0\0\0\0\0\0\0\0\0\0\
    \0\0\0\0\0\0\0\0\0\0\0\0\0\0\0\0\
    \0\0\0\0\0\0\0\0\0\0\0\0\0\0\0\0\
    \0\0\0\0\0\0\0\0\0\0\0\0\0\0\0\0\
    \0\0\0\0\0\0\0\0\0\0\0\0\0\0\0\0";

pub fn complement(b: u8) -> u8
    ensures { result ≡ complement_of b }
{
    COMPLEMENT[b as usize]
}

pub fn is_letter(b: u8) -> bool
    ensures { result ≡ is_letter b }
{
    complement(b) != 0
}

pub fn upper(b: u8) -> u8
    ensures { result ≡ upper_of b }
{
    if b'a' <= b && b <= b'z' { b - 32 } else { b }
}

pub fn same_letter(a: u8, b: u8) -> bool
    ensures { result ≡ same_letter a b }
{
    upper(a) == upper(b)
}

// 01 "Prefix, groups, collapse": N ends a shared prefix.
pub fn is_base(b: u8) -> bool
    ensures { result ≡ is_base b }
{
    is_letter(b) && upper(b) != b'N'
}

pub fn all_letters(s: &[u8]) -> bool
    ensures { result ≡ all_letters s.now }
{
    s.iter().all(|b| is_letter(*b))
}
