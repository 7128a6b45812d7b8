// The words of a program in its bytes.
ghost use Rattle.std.specs.Prelude.{◌≡◌, ◌<◌, ◌^◌, length};
ghost use Rattle.memory.specs.Bytes.{number_at};
ghost use Rattle.opcode.specs.Opcodes.{opcode_number};
ghost use Rattle.words.specs.Words.{decode_in};
ghost use Rattle.printing.specs.Passes.{taken_of};

use instruction::{Parts, parts_of};
use memory::bytes::number_at;
use refusal::Refusal;
use words::decode;

fn number_of(word: &[u8]) -> u32
    requires { length word.now ≡ 4 }
    ensures { result ≡ number_at 4 word.now 0 }
{
    number_at(word, 0, 4) as u32
}

// Nothing else decodes: so the compiler joins the building of an instruction with its taking apart.
pub(crate) fn parts_in(word: &[u8]) -> Result<Parts, Refusal>
    requires { length word.now ≡ 4 }
    ensures value { result ≡ taken_of (decode_in opcode_number (number_at 4 word.now 0)) }
    ensures word_bound { number_at 4 word.now 0 < 2 ^ 32 }
{
    Ok(parts_of(decode(number_of(word))?))
}
