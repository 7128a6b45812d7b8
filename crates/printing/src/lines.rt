// A line: an instruction's name, its operands and a line feed.
ghost use Rattle.std.specs.Prelude.{◌≡◌, ◌+◌, ◌≤◌, length};
ghost use Rattle.names.specs.Names.{name_of};
ghost use Rattle.printing.specs.Passes.{fed, Put, ShortRegisters};

use crate::operands::{operands_length, put_operands};
use crate::put::{put_byte, put_places};
use forms::form_of;
use instruction::Parts;
use names::name_of;
use opcode::Opcode;

// The letters of an opcode's name, without a look at the name, which takes longer.
fn letters(op: Opcode) -> usize
    ensures { (result ≡ length (name_of op)) × (result ≤ 6) }
{
    match op {
        Opcode::Or
        | Opcode::Lb
        | Opcode::Lh
        | Opcode::Lw
        | Opcode::Ld
        | Opcode::Sb
        | Opcode::Sh
        | Opcode::Sw
        | Opcode::Sd => 2,
        Opcode::Mulh
        | Opcode::Divu
        | Opcode::Remu
        | Opcode::Addi
        | Opcode::Andi
        | Opcode::Xori
        | Opcode::Slli
        | Opcode::Srli
        | Opcode::Srai
        | Opcode::Sltu
        | Opcode::Sgeu
        | Opcode::Cmov
        | Opcode::Bltu
        | Opcode::Bgeu
        | Opcode::Jalr => 4,
        Opcode::Cmovz | Opcode::Ecall => 5,
        Opcode::Cmovnz | Opcode::Ebreak => 6,
        _ => 3,
    }
}

pub(crate) fn line_length(p: Parts) -> usize
    ensures { result ≡ length (fed p) }
{
    let op = p.op;
    letters(op) + operands_length(form_of(op), p) + 1
}

fn put_name(text: &mut [u8], at: usize, op: Opcode) -> usize
    requires { at + length (name_of op) ≤ length text.old }
    ensures { Put text.old text.new at result (name_of op) }
{
    put_places::<256, 0>(text, at, letters(op), name_of(op))
}

pub(crate) fn put_line(text: &mut [u8], at: usize, p: Parts) -> usize
    requires short_registers { ShortRegisters p }
    requires p_in_bounds { at + length (fed p) ≤ length text.old }
    ensures { Put text.old text.new at result (fed p) }
{
    let op = p.op;
    let named = put_name(text, at, op);
    let end = put_operands(text, named, form_of(op), p);
    put_byte(text, end, b'\n')
}
