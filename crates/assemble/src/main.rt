// Assembles the text on standard input, and writes the bytes of its words on standard output. Of a text that is refused nothing is
// written there, and one line on standard error: which refusal, and of a bad line its number, its first mistake and the column.
#![tactic(auto)]

mod mistake; // mistake.rt: what can be wrong with a line
mod operands; // operands.rt: registers, and an immediate at the end
mod reading; // reading.rt: a line, up to its first mistake
mod splitting; // splitting.rt: names and digits at the front of a line
mod table; // table.rt: the labels of a text, noted in a table
mod terms; // terms.rt: sums of numbers and labels

use mistake::BadLine;
use reading::mistake_in;
use std::io;
use std::io::Write;
use table::{Labels, note_labels};

// The longest text.
const TEXT: usize = 524_288;

// The first mistake in the line of a number; the table is all zeros.
fn bad_line<'a>(text: &'a [u8], table: &mut [u64], number: u64) -> BadLine<'a> {
    let line = note_labels(text, table, number);
    BadLine {
        number,
        bytes: line.bytes,
        wrong: mistake_in(line, Labels::new(text, table)),
    }
}

// An instruction has at least as many bytes as its word, and a label's definition takes three numbers and has at least two bytes and
// its line's end, which the last line may lack.
fn assemble(rt: &(impl Print + Eprint + AllocGlobal), text: &[u8]) -> io::Result<()> {
    let mut words = vec![in rt.alloc(); 0u8; text.len()]?;
    let mut table = vec![in rt.alloc(); 0u64; text.len() + 1]?;
    let told = programs::assemble(text, &mut words, &mut table);
    match told.code {
        0 => {
            words.truncate(told.length as usize);
            io::writer(rt).write_all(&words)
        }
        10 => {
            let bad = bad_line(text, &mut table, told.particular);
            eprintln!(rt; "refused 10 {bad}")
        }
        code => eprintln!(rt; "refused {code}"),
    }
}

fn main(rt: HostRuntime) -> io::Result<()> {
    match input::read_at_most(rt.alloc(), &mut rt.stdin(), TEXT)? {
        Some(text) => assemble(&rt, &text),
        None => eprintln!(rt; "refused 9"),
    }
}
