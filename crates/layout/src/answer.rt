// The bytes of an answer.
ghost use Rattle.std.specs.Prelude.{◌≡◌};
ghost use Rattle.layout.specs.Layout.{written};
ghost use Rattle.layout.specs.Answer.{ANSWER_BYTES, answer_bytes};

use crate::writing::put_three;

pub const ANSWER_BYTES: usize = 24;

// An answer of another length isn't written.
pub fn write_answer(bytes: &mut [u8], code: u64, steps: u64, particular: u64)
    ensures { bytes.new ≡ written ANSWER_BYTES (answer_bytes code steps particular) bytes.old }
{
    if bytes.len() != ANSWER_BYTES {
        return;
    }
    put_three(bytes, 0, code, steps, particular);
}
