// The instructions on a register and an immediate.
ghost use Rattle.std.specs.Prelude.{◌≡◌, ◌+◌, ◌%◌, ◌^◌, Ok};
ghost use Rattle.bound.specs.Bits.{bits_of};
ghost use Rattle.opcode.specs.Opcodes.{form_of};
ghost use Rattle.instruction.specs.declared.LoadKind.TheVariants as K;
ghost use Rattle.effect.specs.Operations.{plus64, loaded};
ghost use Rattle.effect.specs.Effects.{writes, on_loaded};
ghost use Rattle.effect.specs.Tables.{turn, Where, is_immediate, is_shift, Turns, DecidesOne, DecidesShift};

use memory::Size;
use opcode::Opcode;
use refusal::Refusal;

// The value and the bound of the source, and the immediate.
#[derive(Clone, Copy)]
pub struct Source {
    pub pc: u64,
    pub s: u64,
    pub y: u8,
    pub imm: u64,
}

// What it comes to, where it is not refused: the destination is written, on the way to the next instruction.
#[derive(Clone, Copy)]
pub struct Turn {
    pub next: u64,
    pub bound: u8,
    pub value: u64,
}

fn writes(o: Source, value: u64, bound: u8) -> Turn
    ensures { result ≡ turn (plus64 o.pc 4) bound value }
{
    Turn {
        next: value::address::plus(o.pc, 4),
        bound,
        value,
    }
}

// The return address is written, on the way elsewhere.
fn links(o: Source, next: u64) -> Turn
    ensures { result ≡ turn next (bits_of (plus64 o.pc 4)) (plus64 o.pc 4) }
{
    let link = value::address::plus(o.pc, 4);
    Turn {
        next,
        bound: bound::from_constant(link),
        value: link,
    }
}

#[tactic(auto, unfolding(crate::specs::Effects::on_loaded))]
fn loaded(o: Source, l: Result<u64, Refusal>, bound: u8) -> Result<Turn, Refusal>
    ensures { Turns result (λ rd. on_loaded (λ v. writes rd v bound (plus64 o.pc 4)) l) }
{
    Ok(writes(o, l?, bound))
}

// Signed loads, one for each size: the types that they extend and the calls that do it are others, so one function would take both.
#[tactic(auto, unfolding(crate::specs::Effects::on_loaded, crate::specs::Operations::loaded))]
fn loaded_8(o: Source, l: Result<u64, Refusal>) -> Result<Turn, Refusal>
    ensures { Turns result (λ rd. on_loaded (λ v. writes rd (loaded K.Lb v) 8 (plus64 o.pc 4)) l) }
{
    Ok(writes(o, value::extension::extend_8((l? % 0x100) as u8), 8))
}

#[tactic(auto, unfolding(crate::specs::Effects::on_loaded, crate::specs::Operations::loaded))]
fn loaded_16(o: Source, l: Result<u64, Refusal>) -> Result<Turn, Refusal>
    ensures { Turns result (λ rd. on_loaded (λ v. writes rd (loaded K.Lh v) 16 (plus64 o.pc 4)) l) }
{
    Ok(writes(o, value::extension::extend_16((l? % 0x1_0000) as u16), 16))
}

fn address(o: Source) -> u64
    ensures { result ≡ plus64 o.s o.imm }
{
    value::address::plus(o.s, o.imm)
}

pub fn decide(op: Opcode, o: Source, m: &[u8]) -> Result<Turn, Refusal>
    ensures { Where (is_immediate (form_of op)) (DecidesOne op o m.now result) (result ≡ Ok (turn 0 0 0)) }
{
    match op {
        Opcode::Addi => Ok(writes(
            o,
            value::forty::add(o.s, o.imm),
            bound::after_add(o.y, bound::from_constant(o.imm)),
        )),
        Opcode::Andi => Ok(writes(
            o,
            value::forty::and(o.s, o.imm),
            bound::after_and(o.y, bound::from_constant(o.imm)),
        )),
        Opcode::Ori => Ok(writes(
            o,
            value::forty::or(o.s, o.imm),
            bound::after_larger(o.y, bound::from_constant(o.imm)),
        )),
        Opcode::Xori => Ok(writes(
            o,
            value::forty::xor(o.s, o.imm),
            bound::after_larger(o.y, bound::from_constant(o.imm)),
        )),
        Opcode::Lb => loaded_8(o, memory::load(m, address(o), Size::Byte)),
        Opcode::Lbu => loaded(o, memory::load(m, address(o), Size::Byte), 8),
        Opcode::Lh => loaded_16(o, memory::load(m, address(o), Size::Half)),
        Opcode::Lhu => loaded(o, memory::load(m, address(o), Size::Half), 16),
        Opcode::Lw => loaded(o, memory::load(m, address(o), Size::Word), 32),
        Opcode::Ld => loaded(o, memory::load(m, address(o), Size::Double), 40),
        Opcode::Jalr => Ok(links(o, address(o) / 2 * 2)),
        _ => Ok(Turn {
            next: 0,
            bound: 0,
            value: 0,
        }),
    }
}

pub fn shift(op: Opcode, o: Source) -> Turn
    ensures { Where (is_shift (form_of op)) (DecidesShift op o (Ok result)) (result ≡ turn 0 0 0) }
{
    match op {
        Opcode::Slli => writes(
            o,
            value::forty::shl(o.s, o.imm % 64),
            bound::after_shl(o.y, o.imm % 64),
        ),
        Opcode::Srli => writes(
            o,
            value::forty::shr(o.s, o.imm % 64),
            bound::after_srl(o.y, o.imm % 64),
        ),
        Opcode::Srai => writes(
            o,
            value::forty::sra(o.s, o.imm % 64),
            bound::after_sra(o.y, o.imm % 64),
        ),
        _ => Turn {
            next: 0,
            bound: 0,
            value: 0,
        },
    }
}
