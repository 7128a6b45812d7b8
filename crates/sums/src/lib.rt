// Sums of numbers and labels, read from a line: `sum` and `term` call each other, and the depth falls. What is read from a place is a
// value and the place after it.
#![tactic(auto)]

mod digits;
mod numbers;

ghost use Rattle.std.specs.Prelude.{◌≡◌, true, drop};
ghost use Rattle.labels.specs.Bytes.{is_letter, head_of};
ghost use Rattle.sums.specs.Reader.{name_read, closed_after, sum_read, term_read};
ghost use Rattle.sums.specs.Code.{look_in, op_at, read_to, Past};

use digits::number;
use labels::table::find;
use labels::text::{byte, letter, skip};
use numbers::{Op, distance, joined};

// What labels mean in a line: where their names stand, the table that they are noted in, and the instruction that they count from.
#[derive(Clone, Copy)]
pub struct Scope<'a> {
    pub text: &'a [u8],
    pub table: &'a [u64],
    pub base: u64,
}

// The label at a place.
fn named(s: &[u8], scope: Scope<'_>, at: usize) -> Option<(i64, usize)>
    requires { is_letter (head_of (drop at s.now)) ≡ true }
    ensures { (name_read (look_in scope.entry.text.now scope.entry.table.now scope.entry.base) (drop at s.now) ≡ read_to s.now result) × Past s.now at result }
{
    let (index, after) = find(scope.text, scope.table, s, at)?;
    let v = distance(index, scope.base)?;
    Some((v, after))
}

// The sign at a place.
fn sign(s: &[u8], at: usize) -> Option<Op>
    ensures { result ≡ op_at (head_of (drop at s.now)) }
{
    match byte(s, at) {
        b'+' => Some(Op::Add),
        b'-' => Some(Op::Sub),
        _ => None,
    }
}

// A parenthesis after the value v.
fn closed(s: &[u8], v: i64, at: usize) -> Option<(i64, usize)>
    ensures { (closed_after v (drop at s.now) ≡ read_to s.now result) × Past s.now at result }
{
    if byte(s, at) == b')' {
        Some((v, at + 1))
    } else {
        None
    }
}

// sum = term {("+" | "-") term}; what is read ends after the spaces that follow
#[cycle(sum_term)]
pub fn sum(s: &[u8], scope: Scope<'_>, at: usize, depth: u8) -> Option<(i64, usize)>
    ensures { (sum_read depth (look_in scope.entry.text.now scope.entry.table.now scope.entry.base) (drop at s.now) ≡ read_to s.now result) × Past s.now at result }
{
    let (first, after) = term(s, scope, at, depth)?;
    let mut v = first;
    let mut n = skip(s, after);
    while let Some(op) = sign(s, n) {
        let from = skip(s, n + 1);
        let (w, m) = term(s, scope, from, depth)?;
        v = joined(op, v, w)?;
        n = skip(s, m);
    }
    Some((v, n))
}

// term = number | label | "(" sum ")"
#[cycle(sum_term)]
fn term(s: &[u8], scope: Scope<'_>, at: usize, depth: u8) -> Option<(i64, usize)>
    ensures { (term_read depth (look_in scope.entry.text.now scope.entry.table.now scope.entry.base) (drop at s.now) ≡ read_to s.now result) × Past s.now at result }
{
    let c = byte(s, at);
    if c == b'(' {
        if depth == 0 {
            return None;
        }
        let from = skip(s, at + 1);
        let (v, n) = sum(s, scope, from, depth - 1)?;
        return closed(s, v, n);
    }
    if letter(c) {
        return named(s, scope, at);
    }
    number(s, at)
}
