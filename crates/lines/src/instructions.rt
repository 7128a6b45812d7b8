// An instruction's operands, by its form, and its word, if the line is right.
ghost use Rattle.std.specs.Prelude.{Some, ◌≡◌, true, [], drop};
ghost use Rattle.opcode.specs.Opcodes.{opcode_number, form_of};
ghost use Rattle.opcode.specs.declared.Form.TheVariants as Form·;
ghost use Rattle.words.specs.Words.{encoded_in};
ghost use Rattle.sums.specs.Code.{look_in};
ghost use Rattle.lines.specs.Lines.{kinds_of, word_made, word_for, saying_of};
ghost use Rattle.lines.specs.Reader.{operands_read, instruction_read};
ghost use Rattle.lines.specs.Code.{is_numbered, labels_in, word_or_wrong};

use crate::operands::{number_last, register_comma, register_last};
use forms::form_of;
use instruction::Parts;
use labels::text::skip;
use opcode::{Form, Opcode};
use sums::Scope;
use words::encode_parts;

fn word(p: Parts) -> Option<u32>
    ensures { saying_of (word_made (encoded_in opcode_number p)) ≡ word_or_wrong result }
{
    match encode_parts(p) {
        Ok(w) => Some(w),
        Err(_) => None,
    }
}

// The operands of the forms, a function each: they differ in what is read, and in which of it fits which field.
fn three_registers(s: &[u8], op: Opcode, at: usize) -> Option<u32>
    requires { form_of op ≡ Form·.R }
    ensures { saying_of (word_for op (operands_read (kinds_of Form·.R) (look_in [] [] 0) (drop at s.now))) ≡ word_or_wrong result }
{
    let (a, m) = register_comma(s, at)?;
    let (b, n) = register_comma(s, m)?;
    let (c, _) = register_last(s, n)?;
    word(Parts {
        op,
        a,
        b,
        c,
        imm: 0,
    })
}

fn two_and_number(s: &[u8], scope: Scope<'_>, op: Opcode, at: usize) -> Option<u32>
    requires { is_numbered (form_of op) ≡ true }
    ensures { saying_of (word_for op (operands_read (kinds_of Form·.I) (look_in scope.entry.text.now scope.entry.table.now scope.entry.base) (drop at s.now))) ≡ word_or_wrong result }
{
    let (a, m) = register_comma(s, at)?;
    let (b, n) = register_comma(s, m)?;
    let (v, _) = number_last(s, scope, n)?;
    word(Parts {
        op,
        a,
        b,
        c: 0,
        imm: v.cast_unsigned(),
    })
}

fn one_and_number(s: &[u8], scope: Scope<'_>, op: Opcode, at: usize) -> Option<u32>
    requires { form_of op ≡ Form·.J }
    ensures { saying_of (word_for op (operands_read (kinds_of Form·.J) (look_in scope.entry.text.now scope.entry.table.now scope.entry.base) (drop at s.now))) ≡ word_or_wrong result }
{
    let (a, m) = register_comma(s, at)?;
    let (v, _) = number_last(s, scope, m)?;
    word(Parts {
        op,
        a,
        b: 0,
        c: 0,
        imm: v.cast_unsigned(),
    })
}

fn nothing_more(s: &[u8], op: Opcode, at: usize) -> Option<u32>
    requires { form_of op ≡ Form·.Alone }
    ensures { saying_of (word_for op (operands_read [] (look_in [] [] 0) (drop at s.now))) ≡ word_or_wrong result }
{
    let n = skip(s, at);
    if n < s.len() {
        return None;
    }
    word(Parts {
        op,
        a: 0,
        b: 0,
        c: 0,
        imm: 0,
    })
}

// What stands after an instruction's name; in the scope, labels count from the instruction itself.
pub(crate) fn instruction(s: &[u8], scope: Scope<'_>, op: Opcode, at: usize) -> Option<u32>
    ensures { instruction_read (Some op) (labels_in scope.entry.text.now scope.entry.table.now scope.entry.base) (drop at s.now) ≡ word_or_wrong result }
{
    let start = Scope { base: 0, ..scope };
    let f = form_of(op);
    match f {
        Form::R => three_registers(s, op, at),
        Form::I | Form::Shift | Form::S => two_and_number(s, start, op, at),
        Form::B => two_and_number(s, scope, op, at),
        Form::J => one_and_number(s, scope, op, at),
        Form::Alone => nothing_more(s, op, at),
    }
}
