// A byte of text, and a number's places.
ghost use Rattle.std.specs.Prelude.{[], ◌∷◌, ◌+◌, ◌≤◌, ◌<◌, length};
ghost use Rattle.printing.specs.Passes.{places, Put};

pub(crate) fn put_byte(text: &mut [u8], at: usize, b: u8) -> usize
    requires { at + 1 ≤ length text.old }
    ensures { Put text.old text.new at result (b ∷ []) }
{
    text[at] = b;
    at + 1
}

// The lowest places of a number in a base, from the last to the first: a byte each, ZERO for 0. The letters of a key are its places
// in base 256, the digits of a number those in base 10.
pub(crate) fn put_places<const BASE: u64, const ZERO: u8>(
    text: &mut [u8],
    at: usize,
    size: usize,
    number: u64,
) -> usize
    requires base_some { 0 < BASE }
    requires base_bound { ZERO + BASE ≤ 256 }
    requires size_in_bounds { at + size ≤ length text.old }
    ensures { Put text.old text.new at result (places BASE ZERO size number) }
{
    let mut rest = number;
    for i in (0..size).rev() {
        text[at + i] = ZERO + (rest % BASE) as u8;
        rest = rest / BASE;
    }
    at + size
}
