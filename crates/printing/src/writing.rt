// The second pass: the lines are written.
ghost use Rattle.std.specs.Prelude.{◌≡◌, ◌%◌, ◌≤◌, length};
ghost use Rattle.printing.specs.Passes.{all_words, printed_lines, Put};

use crate::lines::put_line;
use crate::source::parts_in;

pub(crate) fn put_lines(words: &[u8], text: &mut [u8]) -> usize
    requires words_len { length words.now % 4 ≡ 0 }
    requires words_in_bounds { length (printed_lines (all_words words.now)) ≤ length text.old }
    ensures { Put text.old text.new 0 result (printed_lines (all_words words.now)) }
{
    let mut end = 0;
    for word in words.chunks_exact(4) {
        match parts_in(word) {
            Ok(p) => {
                end = put_line(text, end, p);
            }
            Err(_) => {
                return end;
            }
        }
    }
    end
}
