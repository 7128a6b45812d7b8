// Instructions to words.
ghost use Rattle.std.specs.Prelude.{◌≡◌, ◌%◌, ◌^◌};
ghost use Rattle.opcode.specs.Opcodes.{opcode_number};
ghost use Rattle.words.specs.Words.{parts_fit, word_of, encoded_in, encode_in};

use encoding::{encode_btype, encode_itype, encode_jtype, encode_rtype, encode_stype};
use forms::{form_of, imm_fits};
use instruction::{Instruction, Parts, parts_of};
use opcode::{Form, opcode_number};
use refusal::Refusal;

fn parts_fit(p: Parts) -> bool
    ensures { result ≡ parts_fit p }
{
    let op = p.op;
    (p.a < 16) & (p.b < 16) & (p.c < 16) & imm_fits(form_of(op), p.imm)
}

// The word of a number and operands, by the raw encoder of the form.
fn word_of(f: Form, n: u32, p: Parts) -> u32
    ensures { result ≡ word_of f n p }
{
    let a = p.a as u32;
    let b = p.b as u32;
    match f {
        Form::R => encode_rtype(n, a, b, p.c as u32, 0),
        Form::I | Form::Shift => encode_itype(n, a, b, (p.imm % 0x2_0000) as u32),
        Form::S => encode_stype(n, a, b, (p.imm % 0x2_0000) as u32),
        Form::B => encode_btype(n, a, b, (p.imm % 0x2_0000) as u32),
        Form::J => encode_jtype(n, a, (p.imm % 0x20_0000) as u32),
        Form::Alone => encode_rtype(n, 0, 0, 0, 0),
    }
}

// The word of operands, with no instruction built.
pub fn encode_parts(p: Parts) -> Result<u32, Refusal>
    ensures { result ≡ encoded_in opcode_number p }
{
    let op = p.op;
    if parts_fit(p) {
        Ok(word_of(form_of(op), opcode_number(op) as u32, p))
    } else {
        Err(Refusal::Malformed)
    }
}

pub fn encode(i: Instruction) -> Result<u32, Refusal>
    ensures { result ≡ encode_in opcode_number i }
{
    encode_parts(parts_of(i))
}
