// Jal. (Jalr, which reads a register, is an instruction on a register and an immediate.)
ghost use Rattle.std.specs.Prelude.{◌≡◌};
ghost use Rattle.opcode.specs.Opcodes.{form_of};
ghost use Rattle.opcode.specs.declared.Form.TheVariants as F;
ghost use Rattle.words.specs.Words.{apart_of, decoded_of};
ghost use Rattle.execute.specs.Starts.{obeyed, Always};

use crate::carrying::{parts, to};
use crate::{Advance, Start};
use opcode::{Form, Opcode};
use state::registers::Registers;

pub(crate) fn obey(start: Start, op: Opcode, word: u32, registers: &mut Registers) -> Advance
    requires { form_of op ≡ F.J }
    ensures { Always (obeyed start (decoded_of (apart_of op word)) registers.old) result registers.new }
{
    let p = parts(op, word, forms::immediate(Form::J, word));
    let link = value::address::plus(start.pc, 4);
    let bits = bound::from_constant(link);
    registers.write(p.a, link, false, bits);
    to(start, value::address::plus(start.pc, p.imm))
}
