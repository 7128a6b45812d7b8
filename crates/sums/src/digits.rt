// Numbers in decimal.
ghost use Rattle.std.specs.Prelude.{◌≡◌, drop};
ghost use Rattle.sums.specs.Reader.{digits_read, number_read};
ghost use Rattle.sums.specs.Code.{sign_of, read_to, Past};

use crate::numbers::of_digits;
use labels::text::{byte, digit};

// The number that the digits at a place stand for.
fn digits(s: &[u8], at: usize, negative: bool) -> Option<(i64, usize)>
    ensures { (digits_read (sign_of negative) (drop at s.now) ≡ read_to s.now result) × Past s.now at result }
{
    if !digit(byte(s, at)) {
        return None;
    }
    let mut v: u64 = 0;
    let mut end = at;
    for n in at..s.len() {
        let c = s[n];
        if !digit(c) {
            break;
        }
        if 922_337_203_685_477_580 < v {
            return None;
        }
        v = v * 10 + u64::from(c - b'0');
        end = n + 1;
    }
    Some((of_digits(negative, v)?, end))
}

pub(crate) fn number(s: &[u8], at: usize) -> Option<(i64, usize)>
    ensures { (number_read (drop at s.now) ≡ read_to s.now result) × Past s.now at result }
{
    let c = byte(s, at);
    if c == b'+' {
        return digits(s, at + 1, false);
    }
    if c == b'-' {
        return digits(s, at + 1, true);
    }
    digits(s, at, false)
}
