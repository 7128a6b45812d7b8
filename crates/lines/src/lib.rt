// A line of the assembler's language.
#![tactic(auto)]

mod instructions; // instructions.rt: an instruction's operands and word
mod operands; // operands.rt: registers and numbers

ghost use Rattle.std.specs.Prelude.{◌≡◌};
ghost use Rattle.lines.specs.Reader.{line_read};
ghost use Rattle.lines.specs.Code.{start_of, labels_in, said_of, said_by};

use instructions::instruction;
use labels::table::name_at;
use labels::text::{byte, letter, skip};
use names::named;
use sums::Scope;

// How a line begins: with nothing; as the definition of the label at a place; with a name, which may be an instruction's: its key, and the
// place of what follows; or with something else.
#[derive(Clone, Copy)]
pub enum Start {
    Blank,
    Label(usize),
    Word(u64, usize),
    Other,
}

// What a line says: nothing, its label, an instruction's word, or what is wrong. Four answers that each caller tells apart, the last
// of them no error to pass on: so no Result.
#[derive(Clone, Copy)]
pub enum Said {
    Blank,
    Name,
    Word(u32),
    Bad,
}

pub fn start_of(s: &[u8]) -> Start
    ensures { result ≡ start_of s.now }
{
    let at = skip(s, 0);
    if s.len() <= at {
        return Start::Blank;
    }
    if !letter(byte(s, at)) {
        return Start::Other;
    }
    let name = name_at(s, at);
    let n = skip(s, name.after);
    if byte(s, n) != b':' {
        return Start::Word(name.key, n);
    }
    if skip(s, n + 1) < s.len() {
        return Start::Other;
    }
    Start::Label(at)
}

fn word_said(word: Option<u32>) -> Said
    ensures { result ≡ said_by word }
{
    match word {
        Some(w) => Said::Word(w),
        None => Said::Bad,
    }
}

// What a line of a text says, where `own` instructions stand before it.
pub fn line(s: &[u8], text: &[u8], table: &[u64], own: u64) -> Said
    ensures { line_read (labels_in text.now table.now own) s.now ≡ said_of s.now result }
{
    match start_of(s) {
        Start::Blank => Said::Blank,
        Start::Label(_) => Said::Name,
        Start::Word(key, n) => {
            let Some(op) = named(key) else {
                return Said::Bad;
            };
            let scope = Scope {
                text,
                table,
                base: own,
            };
            word_said(instruction(s, scope, op, n))
        }
        Start::Other => Said::Bad,
    }
}
