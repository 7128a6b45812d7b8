// Bytes of a text, and runs of them.
ghost use Rattle.std.specs.Prelude.{◌≡◌, ◌+◌, length, drop};
ghost use Rattle.labels.specs.Bytes.{is_space, is_digit, is_letter, is_part, head_of};
ghost use Rattle.labels.specs.Reading.{run_of};

// The byte at a place, or 0 past the end.
pub fn byte(s: &[u8], at: usize) -> u8
    ensures { result ≡ head_of (drop at s.now) }
{
    s.get(at).copied().unwrap_or(0)
}

pub fn digit(c: u8) -> bool
    ensures { result ≡ is_digit c }
{
    c.is_ascii_digit()
}

pub fn letter(c: u8) -> bool
    ensures { result ≡ is_letter c }
{
    c.is_ascii_alphabetic()
}

pub(crate) fn part(c: u8) -> bool
    ensures { result ≡ is_part c }
{
    letter(c) || digit(c)
}

// The place after the spaces at a place.
pub fn skip(s: &[u8], at: usize) -> usize
    ensures { result ≡ at + length (run_of is_space (drop at s.now)) }
{
    for n in at..s.len() {
        if s[n] != b' ' {
            return n;
        }
    }
    at.max(s.len())
}
