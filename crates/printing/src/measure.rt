// The first pass: whether all words decode, and the room that their text leaves.
ghost use Rattle.std.specs.Prelude.{◌≡◌, ◌%◌, length};
ghost use Rattle.printing.specs.Print.{print_of};
ghost use Rattle.printing.specs.Passes.{all_words, room_after};

use crate::lines::line_length;
use crate::source::parts_in;
use refusal::Refusal;

// Where no room is left it still looks for a word that does not decode.
pub(crate) fn measure(words: &[u8], room: usize) -> Result<usize, Refusal>
    requires { length words.now % 4 ≡ 0 }
    ensures { result ≡ room_after (print_of (all_words words.now)) room }
{
    let mut left = room;
    for word in words.chunks_exact(4) {
        match parts_in(word) {
            Ok(p) => {
                left = left.saturating_sub(line_length(p));
            }
            Err(r) => {
                return Err(r);
            }
        }
    }
    Ok(left)
}
