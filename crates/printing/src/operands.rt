// The operands of an instruction, with their commas and spaces.
ghost use Rattle.std.specs.Prelude.{◌≡◌, ◌∷◌, ◌+◌, ◌≤◌, ◌<◌, length};
ghost use Rattle.names.specs.Names.{register_text};
ghost use Rattle.printing.specs.Print.{number_text, operand_texts, spelled};
ghost use Rattle.printing.specs.Passes.{two_registers, Put, ShortRegisters};

use crate::digits::{number_length, put_signed};
use crate::put::put_byte;
use instruction::Parts;
use opcode::Form;

fn register_length(r: u8) -> usize
    ensures { (result ≡ length (register_text r)) × (result ≤ 3) }
{
    if r < 10 { 2 } else { 3 }
}

pub(crate) fn operands_length(f: Form, p: Parts) -> usize
    ensures { (result ≡ length (spelled (operand_texts f p))) × (result ≤ 32) }
{
    let a = register_length(p.a);
    let b = register_length(p.b);
    match f {
        Form::R => 5 + a + b + register_length(p.c),
        Form::I | Form::Shift | Form::S | Form::B => 5 + a + b + number_length(p.imm),
        Form::J => 3 + a + number_length(p.imm),
        Form::Alone => 0,
    }
}

fn put_first(text: &mut [u8], at: usize, r: u8) -> usize
    requires r_bound { r < 16 }
    requires r_in_bounds { at + length (32 ∷ register_text r) ≤ length text.old }
    ensures { Put text.old text.new at result (32 ∷ register_text r) }
{
    text[at] = b' ';
    text[at + 1] = b'R';
    if r < 10 {
        text[at + 2] = b'0' + r;
        return at + 3;
    }
    text[at + 2] = b'1';
    text[at + 3] = b'0' + (r - 10);
    at + 4
}

fn put_next(text: &mut [u8], at: usize, r: u8) -> usize
    requires r_bound { r < 16 }
    requires r_in_bounds { at + length (44 ∷ (32 ∷ register_text r)) ≤ length text.old }
    ensures { Put text.old text.new at result (44 ∷ (32 ∷ register_text r)) }
{
    let end = put_byte(text, at, b',');
    put_first(text, end, r)
}

fn put_two(text: &mut [u8], at: usize, a: u8, b: u8) -> usize
    requires a_bound { a < 16 }
    requires b_bound { b < 16 }
    requires b_in_bounds { at + length (two_registers a b) ≤ length text.old }
    ensures { Put text.old text.new at result (two_registers a b) }
{
    let end = put_first(text, at, a);
    put_next(text, end, b)
}

fn put_last(text: &mut [u8], at: usize, n: u64) -> usize
    requires { at + length (44 ∷ (32 ∷ number_text n)) ≤ length text.old }
    ensures { Put text.old text.new at result (44 ∷ (32 ∷ number_text n)) }
{
    let comma = put_byte(text, at, b',');
    let space = put_byte(text, comma, b' ');
    put_signed(text, space, n)
}

pub(crate) fn put_operands(text: &mut [u8], at: usize, f: Form, p: Parts) -> usize
    requires short_registers { ShortRegisters p }
    requires p_in_bounds { at + length (spelled (operand_texts f p)) ≤ length text.old }
    ensures { Put text.old text.new at result (spelled (operand_texts f p)) }
{
    match f {
        Form::R => {
            let end = put_two(text, at, p.a, p.b);
            put_next(text, end, p.c)
        }
        Form::I | Form::Shift | Form::S | Form::B => {
            let end = put_two(text, at, p.a, p.b);
            put_last(text, end, p.imm)
        }
        Form::J => {
            let end = put_first(text, at, p.a);
            put_last(text, end, p.imm)
        }
        Form::Alone => at,
    }
}
