// A line that is bad is read from left to right until its first mistake. What is still to be read of it is its rest; once foreign
// bytes are ruled out, its only white space is spaces.
use crate::mistake::{Mistake, Wrong};
use crate::operands::operands;
use crate::splitting::split_name;
use crate::table::{Labels, Line};
use forms::form_of;
use labels::table::name_at;
use names::named;

fn is_foreign(byte: u8) -> bool {
    !byte.is_ascii_alphanumeric() && !matches!(byte, b' ' | b'+' | b'-' | b'(' | b')' | b',' | b':')
}

// The definition of a label, from its name on and from behind its colon on. It is bad if an earlier line has the same.
fn definition<'a>(name: &'a [u8], behind: &'a [u8]) -> Wrong<'a> {
    let rest = behind.trim_ascii_start();
    if rest.is_empty() {
        Mistake::DefinedAgain.at(name)
    } else {
        Mistake::NotAlone.at(rest)
    }
}

// In a line of a text whose labels are noted.
pub fn mistake_in<'a>(line: Line<'a>, labels: Labels<'_>) -> Wrong<'a> {
    let bytes = line.bytes;
    if let Some(place) = bytes.iter().position(|byte| is_foreign(*byte)) {
        return Mistake::ForeignByte.at(&bytes[place..]);
    }
    let rest = bytes.trim_ascii_start();
    if !rest.first().is_some_and(|byte| byte.is_ascii_alphabetic()) {
        return Mistake::NoName.at(rest);
    }
    let (name, behind) = split_name(rest);
    if let [b':', behind @ ..] = behind.trim_ascii_start() {
        return definition(rest, behind);
    }
    match named(name_at(name, 0).key) {
        Some(op) => operands(behind, labels, line.before, form_of(op)),
        None => Mistake::NoInstruction.at(rest),
    }
}
