// The branches.
ghost use Rattle.std.specs.Prelude.{◌≡◌, cond};
ghost use Rattle.opcode.specs.Opcodes.{form_of};
ghost use Rattle.opcode.specs.declared.Form.TheVariants as F;
ghost use Rattle.instruction.specs.Operands.{instruction_of};
ghost use Rattle.instruction.specs.Kinds.{branch_kind_of};
ghost use Rattle.words.specs.Words.{apart_of, decoded_of};
ghost use Rattle.state.specs.Held.{value_of};
ghost use Rattle.state.specs.Registers.{holds};
ghost use Rattle.effect.specs.Operations.{plus64, taken};
ghost use Rattle.execute.specs.Starts.{obeyed, doing, Always};

use crate::carrying::{parts, settle_two, to};
use crate::{Advance, Start};
use effect::branch::taken;
use instruction::Parts;
use opcode::{Form, Opcode};
use state::registers::Registers;

fn either(t: bool, x: u64, y: u64) -> u64
    ensures { result ≡ cond t x y }
{
    if t { x } else { y }
}

// Where the run goes on.
fn next_pc(pc: u64, p: Parts, registers: &Registers) -> u64
    ensures { result ≡ plus64 pc (cond (taken (branch_kind_of p.op) (value_of (holds registers.now p.a)) (value_of (holds registers.now p.b))) p.imm 4) }
{
    let op = p.op;
    let s = registers.value_at(p.a);
    let t = registers.value_at(p.b);
    value::address::plus(pc, either(taken(op, s, t), p.imm, 4))
}

fn executed(start: Start, p: Parts, registers: &mut Registers) -> Advance
    requires { form_of p.op ≡ F.B }
    ensures { Always (doing start (instruction_of p) registers.old) result registers.new }
{
    let choices = start.choices;
    let mode = choices.mode;
    let next = next_pc(start.pc, p, registers);
    settle_two(mode, p.a, p.b, registers);
    to(start, next)
}

pub(crate) fn obey(start: Start, op: Opcode, word: u32, registers: &mut Registers) -> Advance
    requires { form_of op ≡ F.B }
    ensures { Always (obeyed start (decoded_of (apart_of op word)) registers.old) result registers.new }
{
    let p = parts(op, word, forms::immediate(Form::B, word));
    executed(start, p, registers)
}
