// A program as text: its words, or its first bad line.
#![tactic(auto)]

mod checking; // checking.rt: the first bad line
mod noting; // noting.rt: labels into the table
mod spans; // spans.rt: a text line by line
mod writing; // writing.rt: words, and a table of zeros

ghost use Rattle.std.specs.Prelude.{◌≡◌, length, replicate};
ghost use Rattle.programs.specs.Promise.{Assembled, leaves};
ghost use Rattle.programs.specs.Code.{ended_told, Leaves};

use checking::check;
use noting::note_labels;
use told::{Told, done, refused};
use writing::{clear, write_words};

// Why a text gets no words: too little room for its labels or for its words, or its first bad line.
#[derive(Clone, Copy)]
pub(crate) enum Failure {
    NoRoom,
    BadLine(u64),
}

// The length of the words. Nothing is written before every line is known to be right.
fn assemble_with(text: &[u8], words: &mut [u8], table: &mut [u64]) -> Result<u64, Failure>
    requires { table.old ≡ replicate (length table.old) 0 }
    ensures { Leaves text.now words.old table.old result words.new × (length table.new ≡ length table.old) }
{
    let second = note_labels(text, table)?;
    let n = check(text, table, second)?;
    if ((words.len() / 4) as u64) < n {
        return Err(Failure::NoRoom);
    }
    write_words(text, table, words);
    Ok(4 * n)
}

fn answer(r: Result<u64, Failure>) -> Told
    ensures { result ≡ ended_told r }
{
    match r {
        Ok(length) => done(length),
        Err(Failure::NoRoom) => refused(9, 0),
        Err(Failure::BadLine(line)) => refused(10, line),
    }
}

// The words of a text into the front of `words`; `labels` is room for its labels, and is handed back cleared.
pub fn assemble(text: &[u8], words: &mut [u8], labels: &mut [u64]) -> Told
    ensures { Assembled text.now words.old labels.old (leaves result words.new labels.new) }
{
    clear(labels);
    let left = assemble_with(text, words, labels);
    clear(labels);
    answer(left)
}
