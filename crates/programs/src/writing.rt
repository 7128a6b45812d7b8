// The words of a text without a bad line, and a table of zeros.
ghost use Rattle.std.specs.Prelude.{◌≡◌, ◌*◌, ◌≤◌, length, replicate};
ghost use Rattle.std.proofs.lemmas.List.Edits.{sets};
ghost use Rattle.programs.specs.Programs.{lines_of};
ghost use Rattle.programs.specs.Promise.{bytes_of_words};
ghost use Rattle.programs.specs.Code.{words_from};

use crate::spans::text_lines;
use lines::Said;
use memory::bytes::put_number;

pub(crate) fn write_words(text: &[u8], table: &[u64], words: &mut [u8])
    requires { 4 * length (words_from text.now table.now (lines_of text.now) 0) ≤ length words.old }
    ensures { words.new ≡ sets words.old 0 (bytes_of_words (words_from text.now table.now (lines_of text.now) 0)) }
{
    let mut own: u64 = 0;
    let mut to: usize = 0;
    for line in text_lines(text) {
        if let Said::Word(w) = lines::line(line.bytes, text, table, own) {
            put_number(words, to, 4, u64::from(w));
            to += 4;
            own += 1;
        }
    }
}

pub(crate) fn clear(table: &mut [u64])
    ensures { table.new ≡ replicate (length table.old) 0 }
{
    table.fill(0);
}
