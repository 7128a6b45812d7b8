// What the forms share: how a step ends, and what it does to the registers.
ghost use Rattle.std.specs.Prelude.{None, ◌≡◌, ◌%◌};
ghost use Rattle.encoding.specs.Fields.{field};
ghost use Rattle.state.specs.Held.{Whole};
ghost use Rattle.state.specs.Registers.{put};
ghost use Rattle.effect.specs.Operations.{plus64};
ghost use Rattle.execute.specs.Starts.{settle_two};
ghost use Rattle.execute.specs.declared.Went.TheVariants as W;

use crate::{Advance, Mode, Start, Went};
use encoding::fields;
use instruction::Parts;
use opcode::Opcode;
use pending::Check;
use state::registers::Registers;

fn register(x: u32) -> u8
    ensures { result ≡ x % 16 }
{
    (x % (fields::REGISTER_MASK + 1)) as u8
}

pub(crate) fn parts(op: Opcode, word: u32, imm: u64) -> Parts
    ensures { result ≡ record { op = op; a = field 7 4 word; b = field 11 4 word; c = field 15 4 word; imm = imm } }
{
    Parts {
        op,
        a: register(word >> fields::RD_SHIFT),
        b: register(word >> fields::RS1_SHIFT),
        c: register(word >> fields::RS2_SHIFT),
        imm,
    }
}

pub(crate) fn to(start: Start, next: u64) -> Advance
    ensures { result ≡ record { went = W.On; pc = next; halted = start.halted; checks = None } }
{
    Advance {
        went: Went::On,
        pc: next,
        halted: start.halted,
        checks: None,
    }
}

pub(crate) fn onward(start: Start) -> Advance
    ensures { result ≡ record { went = W.On; pc = plus64 start.pc 4; halted = start.halted; checks = None } }
{
    to(start, value::address::plus(start.pc, 4))
}

// The sources of an instruction on whole values; R0 where it has only one. Of two arms the compiler takes the last one to be the
// more likely, here and in the limb forms: the plain mode has less else to do.
pub(crate) fn settle_two(mode: Mode, first: u8, second: u8, registers: &mut Registers)
    ensures { registers.new ≡ settle_two mode first second registers.old }
{
    match mode {
        Mode::Deferred => {
            registers.normalise(first);
            registers.normalise(second);
        }
        Mode::Plain => (),
    }
}

#[derive(Clone, Copy)]
pub(crate) struct Write {
    pub rd: u8,
    pub bound: u8,
    pub value: u64,
}

pub(crate) fn put(mode: Mode, first: u8, second: u8, w: Write, registers: &mut Registers)
    ensures { registers.new ≡ put (settle_two mode first second registers.old) w.rd (Whole w.value) w.bound }
{
    settle_two(mode, first, second, registers);
    registers.write(w.rd, w.value, false, w.bound);
}
