// How an instruction of each opcode lies in its word (document 01, "Words"), and what a word of each form has beside its opcode and
// registers.
#![tactic(auto)]

ghost use Rattle.std.specs.Prelude.{◌≡◌, ◌/◌, ◌^◌, ◌<◌};
ghost use Rattle.encoding.specs.Fields.{fits_in};
ghost use Rattle.opcode.specs.Opcodes.{form_of};
ghost use Rattle.forms.specs.Forms.{used_bits, immediate_of, imm_fits};

use encoding::fields;
use opcode::{Form, Opcode};

// A shift amount has six bits of the immediate's.
const SHIFT_USED: u32 = fields::IMM_SHIFT + 6;

pub fn form_of(op: Opcode) -> Form
    ensures { result ≡ form_of op }
{
    match op {
        Opcode::Addi
        | Opcode::Andi
        | Opcode::Ori
        | Opcode::Xori
        | Opcode::Lb
        | Opcode::Lbu
        | Opcode::Lh
        | Opcode::Lhu
        | Opcode::Lw
        | Opcode::Ld
        | Opcode::Jalr => Form::I,
        Opcode::Slli | Opcode::Srli | Opcode::Srai => Form::Shift,
        Opcode::Sb | Opcode::Sh | Opcode::Sw | Opcode::Sd => Form::S,
        Opcode::Beq | Opcode::Bne | Opcode::Blt | Opcode::Bge | Opcode::Bltu | Opcode::Bgeu =>
            Form::B,
        Opcode::Jal => Form::J,
        Opcode::Ecall | Opcode::Ebreak => Form::Alone,
        _ => Form::R,
    }
}

// The bits of a word above those that its form uses.
#[tactic(auto, unfolding(crate::specs::Forms::used_bits))]
pub fn unused(f: Form, word: u32) -> u32
    ensures { result ≡ word / 2 ^ used_bits f }
{
    match f {
        Form::R => word >> fields::FUNCT_SHIFT,
        Form::Shift => word >> SHIFT_USED,
        Form::Alone => word >> fields::RD_SHIFT,
        Form::I | Form::S | Form::B | Form::J => 0,
    }
}

// The immediate or offset with its sign, as an instruction holds it.
#[tactic(auto, unfolding(crate::specs::Forms::immediate_of))]
pub fn immediate(f: Form, word: u32) -> u64
    ensures { result ≡ immediate_of f word }
{
    match f {
        Form::I | Form::S | Form::B => value::extension::extend_17(word >> fields::IMM_SHIFT),
        Form::Shift => fields::extract_imm(word) as u64,
        Form::J => value::extension::extend_21(word >> fields::OFFSET_SHIFT),
        Form::R | Form::Alone => 0,
    }
}

// -2^SIGN to 2^SIGN - 1, by one sum and one comparison.
fn fits<const SIGN: u32>(imm: u64) -> bool
    requires { SIGN < 63 }
    ensures { result ≡ fits_in SIGN imm }
{
    imm.wrapping_add(1 << SIGN) < 2 << SIGN
}

// Whether the field of a form holds a number.
#[tactic(auto, unfolding(crate::specs::Forms::imm_fits))]
pub fn imm_fits(f: Form, imm: u64) -> bool
    ensures { result ≡ imm_fits f imm }
{
    match f {
        Form::I | Form::S | Form::B => fits::<16>(imm),
        Form::Shift => imm < 64,
        Form::J => fits::<20>(imm),
        Form::R | Form::Alone => true,
    }
}
