// The instructions on two registers: Add and Sub on limbs where the mode has that form, and all on whole values.
ghost use Rattle.std.specs.Prelude.{Ok, Some, ◌≡◌};
ghost use Rattle.opcode.specs.Opcodes.{form_of};
ghost use Rattle.opcode.specs.declared.Form.TheVariants as F;
ghost use Rattle.instruction.specs.Operands.{instruction_of};
ghost use Rattle.words.specs.Words.{apart_of, decoded_of};
ghost use Rattle.effect.specs.Notes.{document_notes};
ghost use Rattle.effect.specs.Operations.{plus64};
ghost use Rattle.effect.specs.Effects.{seen};
ghost use Rattle.effect.specs.Tables.{deed_outcome, two_of};
ghost use Rattle.deferred.specs.Limbs.{limbed};
ghost use Rattle.pending.specs.Pending.{check};
ghost use Rattle.execute.specs.Modes.{limbs_in};
ghost use Rattle.execute.specs.Starts.{obeyed, doing, on_whole, carried, Always, settle_two};
ghost use Rattle.execute.specs.declared.Went.TheVariants as W;

use crate::carrying::{Write, onward, parts, put, settle_two};
use crate::{Advance, Mode, Start, Went, refuse};
use effect::registers::{Deed, Operands, decide};
use instruction::Parts;
use opcode::{Form, Opcode};
use pending::Check;
use refusal::Refusal;
use state::registers::Registers;

fn checked(start: Start, bound: u8, value: u64) -> Advance
    ensures { result ≡ record { went = W.On; pc = plus64 start.pc 4; halted = start.halted; checks = Some (check value bound) } }
{
    Advance {
        went: Went::On,
        pc: value::address::plus(start.pc, 4),
        halted: start.halted,
        checks: Some(Check { bound, value }),
    }
}

fn act(start: Start, deed: Deed, p: Parts, registers: &mut Registers) -> Advance
    ensures { Always (carried start (deed_outcome p.a start.pc (Ok deed)) registers.old (settle_two start.choices.mode p.b p.c registers.old)) result registers.new }
{
    let choices = start.choices;
    let mode = choices.mode;
    match deed {
        Deed::Writes { bound, value } => {
            let w = Write {
                rd: p.a,
                bound,
                value,
            };
            put(mode, p.b, p.c, w, registers);
            onward(start)
        }
        Deed::Checks { bound, value } => {
            let room = start.room;
            if pending::lacks(room, 1) {
                return refuse(start, Refusal::ListFull { pc: start.pc });
            }
            let w = Write {
                rd: p.a,
                bound,
                value,
            };
            put(mode, p.b, p.c, w, registers);
            checked(start, bound, value)
        }
        Deed::Passes => {
            settle_two(mode, p.b, p.c, registers);
            onward(start)
        }
    }
}

fn carry(start: Start, deed: Result<Deed, Refusal>, p: Parts, registers: &mut Registers) -> Advance
    ensures { Always (carried start (deed_outcome p.a start.pc deed) registers.old (settle_two start.choices.mode p.b p.c registers.old)) result registers.new }
{
    match deed {
        Ok(deed) => act(start, deed, p, registers),
        Err(r) => refuse(start, r),
    }
}

fn read(pc: u64, p: Parts, registers: &Registers) -> Operands
    ensures { result ≡ two_of p.a p.b p.c (seen pc registers.now) }
{
    Operands {
        pc,
        s: registers.value_at(p.b),
        t: registers.value_at(p.c),
        x: registers.bound_at(p.a),
        y: registers.bound_at(p.b),
        z: registers.bound_at(p.c),
    }
}

fn limbs(mode: Mode, p: Parts, registers: &mut Registers) -> bool
    requires { form_of p.op ≡ F.R }
    ensures { limbed result registers.new ≡ limbs_in mode document_notes (instruction_of p) registers.old }
{
    match mode {
        Mode::Deferred => deferred::limbs_of_registers(p, registers),
        Mode::Plain => false,
    }
}

fn on_whole(start: Start, p: Parts, registers: &mut Registers) -> Advance
    requires { form_of p.op ≡ F.R }
    ensures { Always (on_whole start (instruction_of p) registers.old) result registers.new }
{
    let op = p.op;
    let deed = decide(op, read(start.pc, p, registers));
    carry(start, deed, p, registers)
}

fn executed(start: Start, p: Parts, registers: &mut Registers) -> Advance
    requires { form_of p.op ≡ F.R }
    ensures { Always (doing start (instruction_of p) registers.old) result registers.new }
{
    let choices = start.choices;
    let mode = choices.mode;
    if limbs(mode, p, registers) {
        return onward(start);
    }
    on_whole(start, p, registers)
}

pub(crate) fn obey(start: Start, op: Opcode, word: u32, registers: &mut Registers) -> Advance
    requires { form_of op ≡ F.R }
    ensures { Always (obeyed start (decoded_of (apart_of op word)) registers.old) result registers.new }
{
    if forms::unused(Form::R, word) != 0 {
        return refuse(start, Refusal::UnusedBits { word });
    }
    let p = parts(op, word, forms::immediate(Form::R, word));
    executed(start, p, registers)
}
