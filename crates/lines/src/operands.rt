// Operands, each with the spaces around it: what is read is a value and the place after it.
ghost use Rattle.std.specs.Prelude.{◌≡◌, [], drop};
ghost use Rattle.sums.specs.Code.{look_in, read_to};
ghost use Rattle.lines.specs.Lines.{register as Kind·register, immediate as Kind·immediate};
ghost use Rattle.lines.specs.Reader.{register_read};
ghost use Rattle.lines.specs.Code.{is_two, comma_read, last_read, reg_seen, Within};

use labels::text::{byte, digit, skip};
use sums::{Scope, sum};

// Whether two digits are those of 10 to 15.
fn teen(a: u8, b: u8) -> bool
    ensures { result ≡ is_two a b }
{
    (a == b'1') & ((b'0' <= b) & (b <= b'5'))
}

// "R" and a number from 0 to 15.
fn register(s: &[u8], at: usize) -> Option<(u8, usize)>
    ensures { (register_read (drop at s.now) ≡ reg_seen s.now result) × Within s.now result }
{
    let c = byte(s, at);
    if c != b'R' {
        return None;
    }
    let a = byte(s, at + 1);
    if !digit(a) {
        return None;
    }
    let b = byte(s, at + 2);
    if teen(a, b) {
        return Some((10 + (b - b'0'), at + 3));
    }
    Some((a - b'0', at + 2))
}

// A register with a comma after it; what is read ends after the comma.
pub(crate) fn register_comma(s: &[u8], at: usize) -> Option<(u8, usize)>
    ensures { (comma_read Kind·register (look_in [] [] 0) (drop at s.now) ≡ reg_seen s.now result) × Within s.now result }
{
    let (r, after) = register(s, skip(s, at))?;
    let n = skip(s, after);
    if byte(s, n) == b',' {
        Some((r, n + 1))
    } else {
        None
    }
}

// A register at the end of the line.
pub(crate) fn register_last(s: &[u8], at: usize) -> Option<(u8, usize)>
    ensures { (last_read Kind·register (look_in [] [] 0) (drop at s.now) ≡ reg_seen s.now result) × Within s.now result }
{
    let (r, after) = register(s, skip(s, at))?;
    let n = skip(s, after);
    if n < s.len() { None } else { Some((r, n)) }
}

// A number at the end of the line.
pub(crate) fn number_last(s: &[u8], scope: Scope<'_>, at: usize) -> Option<(i64, usize)>
    ensures { last_read Kind·immediate (look_in scope.entry.text.now scope.entry.table.now scope.entry.base) (drop at s.now) ≡ read_to s.now result }
{
    let (v, n) = sum(s, scope, skip(s, at), 16)?;
    if n < s.len() { None } else { Some((v, n)) }
}
