// Words to instructions.
ghost use Rattle.std.specs.Prelude.{◌≡◌, ◌%◌};
ghost use Rattle.encoding.specs.Fields.{field};
ghost use Rattle.opcode.specs.Opcodes.{opcode_number};
ghost use Rattle.words.specs.Words.{apart_of, take_in, decode_in};

use encoding::fields;
use forms::{form_of, immediate, unused};
use instruction::{Instruction, Parts, instruction_of};
use opcode::{Opcode, opcode_of};
use refusal::Refusal;

fn register(x: u32) -> u8
    ensures { result ≡ x % 16 }
{
    (x % (fields::REGISTER_MASK + 1)) as u8
}

// All four fields are read, whatever the form: no test is taken for those that the instruction lacks.
fn apart(op: Opcode, word: u32) -> Result<Parts, Refusal>
    ensures { result ≡ apart_of op word }
{
    let f = form_of(op);
    if unused(f, word) != 0 {
        return Err(Refusal::UnusedBits { word });
    }
    Ok(Parts {
        op,
        a: register(word >> fields::RD_SHIFT),
        b: register(word >> fields::RS1_SHIFT),
        c: register(word >> fields::RS2_SHIFT),
        imm: immediate(f, word),
    })
}

fn low(word: u32) -> u8
    ensures { result ≡ field 0 7 word }
{
    (word % (fields::OPCODE_MASK + 1)) as u8
}

// A word taken apart without building the instruction, in at most three branches: a range test of the number, a jump by form, and
// at R, Shift and Alone a test of the unused bits.
fn take(word: u32) -> Result<Parts, Refusal>
    ensures { result ≡ take_in opcode_number word }
{
    match opcode_of(low(word)) {
        Some(op) => apart(op, word),
        None => Err(Refusal::BadOpcode { word }),
    }
}

// One jump more, by opcode, to build the instruction.
#[tactic(auto, unfolding(crate::specs::Words::decoded_of))]
pub fn decode(word: u32) -> Result<Instruction, Refusal>
    ensures { result ≡ decode_in opcode_number word }
{
    Ok(instruction_of(take(word)?))
}
