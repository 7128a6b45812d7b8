// The print of a program.
#![tactic(auto)]

mod digits; // digits.rt: numbers in decimal
mod lines; // lines.rt: a line
mod measure; // measure.rt: the first pass
mod operands; // operands.rt: the operands of an instruction
mod put; // put.rt: a byte of text, and a name
mod source; // source.rt: the words of a program
mod writing; // writing.rt: the second pass

ghost use Rattle.std.specs.Prelude.{◌≡◌};
ghost use Rattle.printing.specs.Print.{print_told, print_leaves};

use measure::measure;
use refusal::{number_of, particular_of};
use told::{Told, done, refused};
use writing::put_lines;

// What `measure` is given is one more than the room, so that what is left is 0 only if the text is too long.
pub fn print(words: &[u8], text: &mut [u8]) -> Told
    ensures { (result ≡ print_told words.now text.old) × (text.new ≡ print_leaves words.now text.old) }
{
    if words.len() % 4 != 0 {
        return refused(9, 0);
    }
    match measure(words, text.len() + 1) {
        Ok(left) => {
            if left == 0 {
                return refused(9, 0);
            }
            let end = put_lines(words, text);
            done(end as u64)
        }
        Err(r) => refused(number_of(r), particular_of(r)),
    }
}
