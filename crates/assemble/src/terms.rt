// Sums of numbers and labels: `sum` and `term` call each other, and the depth falls.
ghost use Rattle.std.specs.Prelude.{◌≤◌, length, IfOk};

use crate::mistake::{Mistake, Wrong};
use crate::splitting::{split_digits, split_name};
use crate::table::Labels;

// A value of 64 signed bits, and the rest of the line behind it.
type Read<'a> = Result<(i64, &'a [u8]), Wrong<'a>>;

fn parsed(number: &[u8]) -> Option<i64> {
    std::str::from_utf8(number).ok()?.parse().ok()
}

// Digits, which may have a sign before them.
fn number(rest: &[u8]) -> Read<'_>
    ensures { IfOk result (λ read. length read.1.now ≤ length rest.now) }
{
    let unsigned = match rest {
        [b'+' | b'-', unsigned @ ..] => unsigned,
        _ => rest,
    };
    let (digits, behind) = split_digits(unsigned);
    if digits.is_empty() {
        return Err(Mistake::LoneSign.at(rest));
    }
    match parsed(&rest[..rest.len() - behind.len()]) {
        Some(value) => Ok((value, behind)),
        None => Err(Mistake::LargeNumber.at(rest)),
    }
}

fn label<'a>(rest: &'a [u8], labels: Labels<'_>) -> Read<'a>
    ensures { IfOk result (λ read. length read.1.now ≤ length rest.now) }
{
    let (name, behind) = split_name(rest);
    match labels.value_of(name) {
        Some(value) => Ok((value, behind)),
        None => Err(Mistake::UnknownLabel.at(rest)),
    }
}

#[cycle(sum_term)]
fn term<'a>(rest: &'a [u8], labels: Labels<'_>, depth: u8) -> Read<'a>
    ensures { IfOk result (λ read. length read.1.now ≤ length rest.now) }
{
    match rest {
        [b'(', ..] if depth == 0 => Err(Mistake::TooDeep.at(rest)),
        [b'(', inner @ ..] => match sum(inner.trim_ascii_start(), labels, depth - 1)? {
            (value, [b')', behind @ ..]) => Ok((value, behind)),
            (_, rest) => Err(Mistake::NotClosed.at(rest)),
        },
        [b'+' | b'-' | b'0'..=b'9', ..] => number(rest),
        [b'A'..=b'Z' | b'a'..=b'z', ..] => label(rest, labels),
        _ => Err(Mistake::NoTerm.at(rest)),
    }
}

// Terms with + and - between, from the left, and the spaces behind.
#[cycle(sum_term)]
pub fn sum<'a>(rest: &'a [u8], labels: Labels<'_>, depth: u8) -> Read<'a>
    ensures { IfOk result (λ read. length read.1.now ≤ length rest.now) }
{
    let (mut value, behind) = term(rest, labels, depth)?;
    let mut rest = behind.trim_ascii_start();
    while let [sign @ (b'+' | b'-'), behind @ ..] = rest {
        let (other, behind) = term(behind.trim_ascii_start(), labels, depth)?;
        let sum = if *sign == b'+' {
            value.checked_add(other)
        } else {
            value.checked_sub(other)
        };
        value = sum.ok_or(Mistake::LargeSum.at(rest))?;
        rest = behind.trim_ascii_start();
    }
    Ok((value, rest))
}
