// The instructions on a register and an immediate: Addi on limbs where the mode has that form, and all on whole values. The steps
// are those of registers.rt, over other types, tables and laws: a trait of them would have a member for each and be met once by each.
ghost use Rattle.std.specs.Prelude.{◌≡◌};
ghost use Rattle.opcode.specs.Opcodes.{form_of};
ghost use Rattle.opcode.specs.declared.Form.TheVariants as F;
ghost use Rattle.instruction.specs.Operands.{instruction_of};
ghost use Rattle.words.specs.Words.{apart_of, decoded_of};
ghost use Rattle.effect.specs.Notes.{document_notes};
ghost use Rattle.effect.specs.Effects.{seen};
ghost use Rattle.effect.specs.Tables.{turn_outcome, one_of};
ghost use Rattle.deferred.specs.Limbs.{limbed};
ghost use Rattle.execute.specs.Modes.{limbs_in};
ghost use Rattle.execute.specs.Starts.{advanced, obeyed, doing, on_whole, carried, Always, settle_two};

use crate::carrying::{Write, onward, parts, put, to};
use crate::{Advance, Mode, Start, refuse};
use effect::immediate;
use effect::immediate::{Source, Turn};
use instruction::Parts;
use opcode::{Form, Opcode};
use refusal::Refusal;
use state::registers::Registers;

fn carry(start: Start, turn: Result<Turn, Refusal>, p: Parts, registers: &mut Registers) -> Advance
    ensures { Always (carried start (turn_outcome p.a turn) registers.old (settle_two start.choices.mode p.b 0 registers.old)) result registers.new }
{
    match turn {
        Ok(Turn { next, bound, value }) => {
            let choices = start.choices;
            let mode = choices.mode;
            let w = Write {
                rd: p.a,
                bound,
                value,
            };
            put(mode, p.b, 0, w, registers);
            to(start, next)
        }
        Err(r) => refuse(start, r),
    }
}

fn read(pc: u64, p: Parts, registers: &Registers) -> Source
    ensures { result ≡ one_of p.b p.imm (seen pc registers.now) }
{
    Source {
        pc,
        s: registers.value_at(p.b),
        y: registers.bound_at(p.b),
        imm: p.imm,
    }
}

fn limbs(mode: Mode, p: Parts, registers: &mut Registers) -> bool
    requires { form_of p.op ≡ F.I }
    ensures { limbed result registers.new ≡ limbs_in mode document_notes (instruction_of p) registers.old }
{
    match mode {
        Mode::Deferred => deferred::limbs_of_immediate(p, registers),
        Mode::Plain => false,
    }
}

fn on_whole(start: Start, p: Parts, registers: &mut Registers, m: &[u8]) -> Advance
    requires { form_of p.op ≡ F.I }
    ensures { advanced result registers.new m.now ≡ on_whole start (instruction_of p) registers.old m.now }
{
    let op = p.op;
    let turn = immediate::decide(op, read(start.pc, p, registers), m);
    carry(start, turn, p, registers)
}

fn executed(start: Start, p: Parts, registers: &mut Registers, m: &[u8]) -> Advance
    requires { form_of p.op ≡ F.I }
    ensures { advanced result registers.new m.now ≡ doing start (instruction_of p) registers.old m.now }
{
    let choices = start.choices;
    let mode = choices.mode;
    if limbs(mode, p, registers) {
        return onward(start);
    }
    on_whole(start, p, registers, m)
}

pub(crate) fn obey(
    start: Start,
    op: Opcode,
    word: u32,
    registers: &mut Registers,
    m: &[u8],
) -> Advance
    requires { form_of op ≡ F.I }
    ensures { advanced result registers.new m.now ≡ obeyed start (decoded_of (apart_of op word)) registers.old m.now }
{
    let p = parts(op, word, forms::immediate(Form::I, word));
    executed(start, p, registers, m)
}

// A shift has no limb form and sees no memory.
fn shifted(start: Start, p: Parts, registers: &mut Registers) -> Advance
    requires { form_of p.op ≡ F.Shift }
    ensures { Always (doing start (instruction_of p) registers.old) result registers.new }
{
    let op = p.op;
    let turn = immediate::shift(op, read(start.pc, p, registers));
    carry(start, Ok(turn), p, registers)
}

pub(crate) fn obey_shift(start: Start, op: Opcode, word: u32, registers: &mut Registers) -> Advance
    requires { form_of op ≡ F.Shift }
    ensures { Always (obeyed start (decoded_of (apart_of op word)) registers.old) result registers.new }
{
    if forms::unused(Form::Shift, word) != 0 {
        return refuse(start, Refusal::UnusedBits { word });
    }
    let p = parts(op, word, forms::immediate(Form::Shift, word));
    shifted(start, p, registers)
}
