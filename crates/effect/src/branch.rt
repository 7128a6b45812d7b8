// The branches, on the values of two registers.
ghost use Rattle.std.specs.Prelude.{◌≡◌};
ghost use Rattle.instruction.specs.Kinds.{branch_kind_of};
ghost use Rattle.effect.specs.Operations.{taken};

use opcode::Opcode;

pub fn taken(op: Opcode, s: u64, t: u64) -> bool
    ensures { result ≡ taken (branch_kind_of op) s t }
{
    match op {
        Opcode::Bne => s != t,
        Opcode::Blt => value::forty::slt(s, t),
        Opcode::Bge => !value::forty::slt(s, t),
        Opcode::Bltu => value::forty::ult(s, t),
        Opcode::Bgeu => !value::forty::ult(s, t),
        _ => s == t, // Beq
    }
}
