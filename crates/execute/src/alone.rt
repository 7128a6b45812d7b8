// Ecall and Ebreak.
ghost use Rattle.std.specs.Prelude.{None, ◌≡◌, true};
ghost use Rattle.opcode.specs.Opcodes.{form_of};
ghost use Rattle.opcode.specs.declared.Form.TheVariants as F;
ghost use Rattle.instruction.specs.declared.Instruction.TheVariants.{Ecall};
ghost use Rattle.words.specs.Words.{apart_of, decoded_of};
ghost use Rattle.execute.specs.Modes.{settle_sources};
ghost use Rattle.execute.specs.declared.Went.TheVariants as W;
ghost use Rattle.execute.specs.Starts.{obeyed, doing, Always};

use crate::{Advance, Mode, Start, Went, refuse};
use opcode::{Form, Opcode};
use pending::Check;
use refusal::Refusal;
use state::registers::Registers;

fn settle_all(mode: Mode, registers: &mut Registers)
    ensures { registers.new ≡ settle_sources mode Ecall registers.old }
{
    match mode {
        Mode::Deferred => registers.normalise_all(),
        Mode::Plain => (),
    }
}

fn call(start: Start, registers: &mut Registers) -> Advance
    ensures { Always (doing start Ecall registers.old) result registers.new }
{
    let choices = start.choices;
    let mode = choices.mode;
    settle_all(mode, registers);
    Advance {
        went: Went::Ecall,
        pc: value::address::plus(start.pc, 4),
        halted: start.halted,
        checks: None,
    }
}

fn halt(start: Start) -> Advance
    ensures { result ≡ record { went = W.Ebreak; pc = start.pc; halted = true; checks = None } }
{
    Advance {
        went: Went::Ebreak,
        pc: start.pc,
        halted: true,
        checks: None,
    }
}

pub(crate) fn obey(start: Start, op: Opcode, word: u32, registers: &mut Registers) -> Advance
    requires { form_of op ≡ F.Alone }
    ensures { Always (obeyed start (decoded_of (apart_of op word)) registers.old) result registers.new }
{
    if forms::unused(Form::Alone, word) != 0 {
        return refuse(start, Refusal::UnusedBits { word });
    }
    if opcode::same(op, Opcode::Ecall) {
        return call(start, registers);
    }
    halt(start)
}
