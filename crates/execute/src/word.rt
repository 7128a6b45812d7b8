// A word obeyed, by the form of its opcode: each form reads what it has, decides by opcode over the numbers read, and carries that
// out. Every large function is called from one place, so that the compiler makes one loop of a run.
ghost use Rattle.std.specs.Prelude.{◌≡◌};
ghost use Rattle.encoding.specs.Fields.{field};
ghost use Rattle.opcode.specs.Opcodes.{opcode_number, opcode_in};
ghost use Rattle.words.specs.Words.{apart_of, decoded_of, decode_in};
ghost use Rattle.execute.specs.Rules.{rules_of};
ghost use Rattle.execute.specs.Starts.{advanced, obeyed};

use crate::{Advance, Start, alone, branch, immediate, jump, refuse, registers, store};
use opcode::{Form, Opcode};
use refusal::Refusal;
use state::registers::Registers;

fn by_form(start: Start, op: Opcode, word: u32, registers: &mut Registers, m: &mut [u8]) -> Advance
    ensures { advanced result registers.new m.new ≡ obeyed start (decoded_of (apart_of op word)) registers.old m.old }
{
    match forms::form_of(op) {
        Form::R => registers::obey(start, op, word, registers),
        Form::I => immediate::obey(start, op, word, registers, m),
        Form::Shift => immediate::obey_shift(start, op, word, registers),
        Form::S => store::obey(start, op, word, registers, m),
        Form::B => branch::obey(start, op, word, registers),
        Form::J => jump::obey(start, op, word, registers),
        Form::Alone => alone::obey(start, op, word, registers),
    }
}

fn opcode_at(word: u32) -> Option<Opcode>
    ensures { result ≡ opcode_in opcode_number (field 0 7 word) }
{
    opcode::opcode_of(encoding::extract_opcode(word) as u8)
}

pub fn obey(start: Start, word: u32, registers: &mut Registers, m: &mut [u8]) -> Advance
    ensures { advanced result registers.new m.new ≡ obeyed start (decode_in (rules_of start.choices).number word) registers.old m.old }
{
    match opcode_at(word) {
        Some(op) => by_form(start, op, word, registers, m),
        None => refuse(start, Refusal::BadOpcode { word }),
    }
}
