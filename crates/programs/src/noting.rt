// The labels of a text, noted in a table.
ghost use Rattle.std.specs.Prelude.{◌≡◌, ◌+◌, ◌<◌, ◌^◌, ◌-◌, length, replicate};
ghost use Rattle.programs.specs.Code.{one_more, second_by, after, label_after, is_plain, line_after, NotedAll};

use crate::Failure;
use crate::spans::{TextLine, text_lines};
use labels::table::{Noted, note};
use lines::{Start, start_of};

// What was met so far: instructions, definitions of labels, and the number of the first line that defines one again, or 0.
#[derive(Clone, Copy)]
pub(crate) struct Tally {
    pub own: u64,
    pub count: usize,
    pub second: u64,
}

fn one_more(t: Tally) -> Tally
    requires { t.own < 2 ^ 64 - 1 }
    ensures { result ≡ one_more t }
{
    Tally {
        own: t.own + 1,
        ..t
    }
}

fn first(second: u64, line: u64) -> u64
    ensures { result ≡ second_by second line }
{
    if second == 0 { line } else { second }
}

// A label's definition, the name at a place.
fn note_label(
    text: &[u8],
    table: &mut [u64],
    place: usize,
    line: u64,
    t: Tally,
) -> Result<Tally, Failure>
    ensures { after result table.new ≡ label_after text.now table.old place line t }
{
    if table.len() / 3 <= t.count {
        return Err(Failure::NoRoom);
    }
    match note(text, table, place, t.own) {
        Noted::New => Ok(Tally {
            own: t.own,
            count: t.count + 1,
            second: t.second,
        }),
        Noted::Again => Ok(Tally {
            own: t.own,
            count: t.count + 1,
            second: first(t.second, line),
        }),
        Noted::NoRoom => Err(Failure::NoRoom),
    }
}

// Whether a line's last byte already tells that it is an instruction, right or wrong.
fn is_plain(s: &[u8]) -> bool
    ensures { result ≡ is_plain s.now }
{
    let n = s.len();
    if n == 0 {
        return false;
    }
    let c = s[n - 1];
    !((c == b' ') | (c == b':'))
}

fn note_line(text: &[u8], table: &mut [u64], line: TextLine<'_>, t: Tally) -> Result<Tally, Failure>
    requires { (t.own < 2 ^ 64 - 1) × (line.at + length line.bytes.now < 2 ^ 64) }
    ensures { after result table.new ≡ line_after text.now table.old line.entry.bytes.now line.entry.at line.entry.number t }
{
    if is_plain(line.bytes) {
        return Ok(one_more(t));
    }
    match start_of(line.bytes) {
        Start::Blank => Ok(t),
        Start::Label(p) => note_label(text, table, line.at + p, line.number, t),
        Start::Word(_, _) => Ok(one_more(t)),
        Start::Other => Ok(one_more(t)),
    }
}

// The last number of a text's tally, if there is room for its labels.
pub(crate) fn note_labels(text: &[u8], table: &mut [u64]) -> Result<u64, Failure>
    requires { table.old ≡ replicate (length table.old) 0 }
    ensures { NotedAll text.now table.new result × (length table.new ≡ length table.old) }
{
    let mut t = Tally {
        own: 0,
        count: 0,
        second: 0,
    };
    for line in text_lines(text) {
        t = note_line(text, table, line, t)?;
    }
    Ok(t.second)
}
