// The labels of a text, noted in a table.
ghost use Rattle.std.specs.Prelude.{List, ℕ, ◌≡◌, ◌++◌, length, take};

use labels::table::{find, note};
use lines::{Start, start_of};

// What the labels mean that are noted, counted from an instruction.
#[derive(Clone, Copy)]
pub struct Labels<'a> {
    text: &'a [u8],
    table: &'a [u64],
    base: u64,
}

impl<'a> Labels<'a> {
    pub fn new(text: &'a [u8], table: &'a [u64]) -> Self {
        Labels {
            text,
            table,
            base: 0,
        }
    }

    pub fn counted_from(self, base: u64) -> Self {
        Labels { base, ..self }
    }

    // Four bytes an instruction; no text has so many that this wraps.
    pub fn value_of(self, name: &[u8]) -> Option<i64> {
        match find(self.text, self.table, name, 0) {
            Some((index, _)) => Some(index.wrapping_sub(self.base).wrapping_mul(4).cast_signed()),
            None => None,
        }
    }
}

// A line without its end, and how many instructions stand before it.
#[derive(Clone, Copy)]
pub struct Line<'a> {
    pub bytes: &'a [u8],
    pub before: u64,
}

fn without_end(line: &[u8]) -> &[u8]
    ensures { result.now ≡ take (length result.now) line.now }
{
    line.strip_suffix(b"\r\n")
        .or(line.strip_suffix(b"\n"))
        .unwrap_or(line)
}

// Notes the labels of a text in a table of zeros, and gives the line of a number, which counts from 1.
pub fn note_labels<'a>(text: &'a [u8], table: &mut [u64], number: u64) -> Line<'a>
    ensures { (front back : List ℕ) × (text.now ≡ front ++ (result.bytes.now ++ back)) }
{
    let mut found = Line {
        bytes: &[],
        before: 0,
    };
    let mut place: usize = 0;
    let mut before: u64 = 0;
    for (here, whole) in (1..).zip(text.split_inclusive(|byte| *byte == b'\n')) {
        let bytes = without_end(whole);
        if here == number {
            found = Line { bytes, before };
        }
        match start_of(bytes) {
            Start::Blank => {}
            Start::Label(at) => {
                note(text, table, place.saturating_add(at), before);
            }
            Start::Word(_, _) | Start::Other => before = before.saturating_add(1),
        }
        place = place.saturating_add(whole.len());
    }
    found
}
