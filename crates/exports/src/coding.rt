// Decoder and encoder of instructions: `words`.
ghost use Rattle.std.specs.Prelude.{◌≡◌};
ghost use Rattle.opcode.specs.Opcodes.{opcode_number, opcode_in};
ghost use Rattle.words.specs.Words.{decode_in, encode_in};
ghost use Rattle.exports.specs.Triples.{tripled};
ghost use Rattle.exports.specs.Coding.{packed_of, decoded_triple, encoded_number, given_of};

use crate::triple::{Triple, refused, write_triple};
use instruction::{Instruction, Parts};
use refusal::{Refusal, number_of};

fn packed(p: Parts) -> u64
    ensures { result ≡ packed_of p }
{
    let op = p.op;
    opcode::opcode_number(op) as u64
        + 0x100 * p.a as u64
        + 0x1_0000 * p.b as u64
        + 0x100_0000 * p.c as u64
}

fn decoded(d: Result<Instruction, Refusal>) -> Triple
    ensures { result ≡ decoded_triple d }
{
    match d {
        Ok(i) => {
            let p = instruction::parts_of(i);
            Triple {
                first: 0,
                second: packed(p),
                third: p.imm,
            }
        }
        Err(r) => refused(r),
    }
}

#[unsafe(no_mangle)]
pub extern "C" fn oracle_decode(answer: &mut [u8], word: u32)
    ensures { answer.new ≡ tripled (decoded_triple (decode_in opcode_number word)) answer.old }
{
    write_triple(answer, decoded(words::decode(word)));
}

fn encoded(e: Result<u32, Refusal>) -> u64
    ensures { result ≡ encoded_number e }
{
    match e {
        Ok(w) => w as u64,
        Err(r) => 0xFFFF_FFFF_FFFF_FFFF - number_of(r),
    }
}

pub fn given(opcode: u8, a: u8, b: u8, c: u8, imm: u64) -> Instruction
    ensures { result ≡ given_of (opcode_in opcode_number opcode) a b c imm }
{
    match opcode::opcode_of(opcode) {
        Some(op) => instruction::instruction_of(Parts { op, a, b, c, imm }),
        None => Instruction::Add {
            rd: 16,
            rs1: 16,
            rs2: 16,
        },
    }
}

#[unsafe(no_mangle)]
pub extern "C" fn oracle_encode(opcode: u8, a: u8, b: u8, c: u8, imm: u64) -> u64
    ensures { result ≡ encoded_number (encode_in opcode_number (given_of (opcode_in opcode_number opcode) a b c imm)) }
{
    encoded(words::encode(given(opcode, a, b, c, imm)))
}
