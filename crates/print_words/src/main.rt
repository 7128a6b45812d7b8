// Prints the program whose words' bytes are on standard input, an instruction a line, on standard output. Of words that are refused
// nothing is written there, and one line on standard error: which refusal, and the word if it is one of a word.
#![tactic(auto)]

use std::io;
use std::io::Write;

// As many as memory has.
const BYTES: usize = 65_536;

// A line has at most 22 bytes, for each four.
const TEXT: usize = 360_448;

fn print(rt: &(impl Print + Eprint + AllocGlobal), words: &[u8]) -> io::Result<()> {
    let mut text = vec![in rt.alloc(); 0u8; TEXT]?;
    let told = printing::print(words, &mut text);
    match told.code {
        0 => {
            text.truncate(told.length as usize);
            io::writer(rt).write_all(&text)
        }
        9 => eprintln!(rt; "refused 9"),
        code => eprintln!(rt; "refused {code} word {}", told.particular),
    }
}

fn main(rt: HostRuntime) -> io::Result<()> {
    match input::read_at_most(rt.alloc(), &mut rt.stdin(), BYTES)? {
        Some(words) => print(&rt, &words),
        None => eprintln!(rt; "refused 9"),
    }
}
