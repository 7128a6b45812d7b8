// Numbers in decimal.
ghost use Rattle.std.specs.Prelude.{◌≡◌, ◌+◌, ◌-◌, ◌≤◌, ◌^◌, length};
ghost use Rattle.printing.specs.Print.{digits_by, number_text};
ghost use Rattle.printing.specs.Passes.{Put};

use crate::put::{put_byte, put_places};

// From here on a number stands for a negative one.
const HALF: u64 = 0x8000_0000_0000_0000;

fn count_digits(n: u64) -> usize
    ensures { (result ≡ length (digits_by 20 n)) × (result ≤ 20) }
{
    let mut rest = n;
    let mut count: usize = 1;
    while 10 <= rest {
        rest = rest / 10;
        count += 1;
    }
    count
}

fn put_digits(text: &mut [u8], at: usize, n: u64) -> usize
    requires { at + length (digits_by 20 n) ≤ length text.old }
    ensures { Put text.old text.new at result (digits_by 20 n) }
{
    put_places::<10, b'0'>(text, at, count_digits(n), n)
}

// What a number from `HALF` on is short of 2^64.
fn negated(n: u64) -> u64
    requires { 2 ^ 63 ≤ n }
    ensures { result ≡ 2 ^ 64 - n }
{
    n.wrapping_neg()
}

pub(crate) fn number_length(n: u64) -> usize
    ensures { (result ≡ length (number_text n)) × (result ≤ 21) }
{
    if n < HALF {
        return count_digits(n);
    }
    1 + count_digits(negated(n))
}

pub(crate) fn put_signed(text: &mut [u8], at: usize, n: u64) -> usize
    requires { at + length (number_text n) ≤ length text.old }
    ensures { Put text.old text.new at result (number_text n) }
{
    if n < HALF {
        return put_digits(text, at, n);
    }
    let end = put_byte(text, at, b'-');
    put_digits(text, end, negated(n))
}
