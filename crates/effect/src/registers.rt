// The instructions on two registers.
ghost use Rattle.std.specs.Prelude.{◌≡◌, cond, eqb, Ok};
ghost use Rattle.refusal.specs.Stops.{refusal_of};
ghost use Rattle.memory.specs.Bytes.{bit};
ghost use Rattle.bound.specs.Bits.{after_div, after_cmp, after_larger};
ghost use Rattle.opcode.specs.Opcodes.{form_of};
ghost use Rattle.effect.specs.Operations.{plus64};
ghost use Rattle.effect.specs.Outcomes.{On};
ghost use Rattle.effect.specs.Outcomes as U;
ghost use Rattle.effect.specs.Effects.{writes, writes_checked, goes_to};
ghost use Rattle.effect.specs.Tables.{Where, is_registers, Comes, DecidesTwo};
ghost use Rattle.effect.specs.declared.registers.Deed.TheVariants as D;

use memory::bytes::bit;
use opcode::Opcode;
use refusal::Refusal;

// The values of the two sources; the bounds of the destination and of the sources.
#[derive(Clone, Copy)]
pub struct Operands {
    pub pc: u64,
    pub s: u64,
    pub t: u64,
    pub x: u8,
    pub y: u8,
    pub z: u8,
}

// What it comes to, where it is not refused: the destination is written, with a check or without; or nothing but going on.
#[derive(Clone, Copy)]
pub enum Deed {
    Writes { bound: u8, value: u64 },
    Checks { bound: u8, value: u64 },
    Passes,
}

fn writes(value: u64, bound: u8) -> Deed
    ensures { result ≡ D.Writes bound value }
{
    Deed::Writes { bound, value }
}

fn checks(value: u64, bound: u8) -> Deed
    ensures { Comes (Ok result) (λ rd pc. writes_checked rd value bound (plus64 pc 4)) }
{
    if bound::needs_check(bound) {
        return Deed::Checks { bound, value };
    }
    Deed::Writes { bound, value }
}

fn sets(t: bool) -> Deed
    ensures { result ≡ D.Writes after_cmp (bit t) }
{
    writes(bit(t) as u64, bound::after_cmp())
}

fn divides(o: Operands, value: u64) -> Result<Deed, Refusal>
    ensures { Comes result (λ rd pc. cond (eqb o.t 0) (U.Refuses (refusal_of 1 o.pc)) (writes rd value (after_div o.y) (plus64 pc 4))) }
{
    if o.t == 0 {
        return Err(Refusal::DivisorZero { pc: o.pc });
    }
    Ok(writes(value, bound::after_div(o.y)))
}

fn moves(o: Operands, happens: bool) -> Deed
    ensures { Comes (Ok result) (λ rd pc. cond happens (writes rd o.s (after_larger o.y o.x) (plus64 pc 4)) (goes_to (plus64 pc 4) On)) }
{
    if happens {
        return writes(o.s, bound::after_larger(o.y, o.x));
    }
    Deed::Passes
}

pub fn decide(op: Opcode, o: Operands) -> Result<Deed, Refusal>
    ensures { Where (is_registers (form_of op)) (DecidesTwo op o result) (result ≡ Ok D.Passes) }
{
    match op {
        Opcode::Add => Ok(checks(value::forty::add(o.s, o.t), bound::after_add(o.y, o.z))),
        Opcode::Sub => Ok(writes(value::forty::sub(o.s, o.t), bound::after_larger(o.y, o.z))),
        Opcode::Mul => Ok(checks(value::forty::mul(o.s, o.t), bound::after_mul(o.y, o.z))),
        Opcode::Mulh => Ok(writes(value::product::mulh(o.s, o.t), bound::after_mul(o.y, o.z))),
        Opcode::Div => divides(o, value::division::div(o.s, o.t)),
        Opcode::Divu => divides(o, value::division::divu(o.s, o.t)),
        Opcode::Rem => divides(o, value::division::rem(o.s, o.t)),
        Opcode::Remu => divides(o, value::division::remu(o.s, o.t)),
        Opcode::And => Ok(writes(value::forty::and(o.s, o.t), bound::after_and(o.y, o.z))),
        Opcode::Or => Ok(writes(value::forty::or(o.s, o.t), bound::after_larger(o.y, o.z))),
        Opcode::Xor => Ok(writes(value::forty::xor(o.s, o.t), bound::after_larger(o.y, o.z))),
        Opcode::Sll => Ok(writes(
            value::forty::shl(o.s, o.t % 64),
            bound::after_shl(o.y, o.t % 64),
        )),
        Opcode::Srl => Ok(writes(
            value::forty::shr(o.s, o.t % 64),
            bound::after_srl(o.y, o.t % 64),
        )),
        Opcode::Sra => Ok(writes(
            value::forty::sra(o.s, o.t % 64),
            bound::after_sra(o.y, o.t % 64),
        )),
        Opcode::Slt => Ok(sets(value::forty::slt(o.s, o.t))),
        Opcode::Sltu => Ok(sets(value::forty::ult(o.s, o.t))),
        Opcode::Sge => Ok(sets(!value::forty::slt(o.s, o.t))),
        Opcode::Sgeu => Ok(sets(!value::forty::ult(o.s, o.t))),
        Opcode::Seq => Ok(sets(o.s == o.t)),
        Opcode::Sne => Ok(sets(o.s != o.t)),
        Opcode::Cmov => Ok(moves(o, o.t != 0)),
        Opcode::Cmovz => Ok(moves(o, o.t == 0)),
        Opcode::Cmovnz => Ok(moves(o, o.t != 0)),
        _ => Ok(Deed::Passes),
    }
}
