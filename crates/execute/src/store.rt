// The stores.
ghost use Rattle.std.specs.Prelude.{◌≡◌, length};
ghost use Rattle.memory.specs.Memory.{store_of, memory_after};
ghost use Rattle.opcode.specs.Opcodes.{form_of};
ghost use Rattle.opcode.specs.declared.Form.TheVariants as F;
ghost use Rattle.instruction.specs.Operands.{instruction_of};
ghost use Rattle.instruction.specs.Kinds.{store_kind_of};
ghost use Rattle.words.specs.Words.{apart_of, decoded_of};
ghost use Rattle.state.specs.Held.{value_of};
ghost use Rattle.state.specs.Registers.{holds};
ghost use Rattle.effect.specs.Operations.{plus64, store_size};
ghost use Rattle.execute.specs.Starts.{advanced, obeyed, doing};

use crate::carrying::{onward, parts, settle_two};
use crate::{Advance, Start, refuse};
use effect::store::store_size;
use instruction::Parts;
use opcode::{Form, Opcode};
use refusal::Refusal;
use state::registers::Registers;

// The bytes are stored, or the store is refused.
fn stored(p: Parts, registers: &Registers, m: &mut [u8]) -> Result<(), Refusal>
    ensures { (result ≡ store_of (store_size (store_kind_of p.op)) (length m.old) (plus64 (value_of (holds registers.now p.a)) p.imm)) × (m.new ≡ memory_after (store_size (store_kind_of p.op)) m.old (plus64 (value_of (holds registers.now p.a)) p.imm) (value_of (holds registers.now p.b))) }
{
    let op = p.op;
    let s = registers.value_at(p.a);
    let t = registers.value_at(p.b);
    memory::store(m, value::address::plus(s, p.imm), store_size(op), t)
}

fn executed(start: Start, p: Parts, registers: &mut Registers, m: &mut [u8]) -> Advance
    requires { form_of p.op ≡ F.S }
    ensures { advanced result registers.new m.new ≡ doing start (instruction_of p) registers.old m.old }
{
    match stored(p, registers, m) {
        Ok(()) => {
            let choices = start.choices;
            let mode = choices.mode;
            settle_two(mode, p.a, p.b, registers);
            onward(start)
        }
        Err(r) => refuse(start, r),
    }
}

pub(crate) fn obey(
    start: Start,
    op: Opcode,
    word: u32,
    registers: &mut Registers,
    m: &mut [u8],
) -> Advance
    requires { form_of op ≡ F.S }
    ensures { advanced result registers.new m.new ≡ obeyed start (decoded_of (apart_of op word)) registers.old m.old }
{
    let p = parts(op, word, forms::immediate(Form::S, word));
    executed(start, p, registers, m)
}
