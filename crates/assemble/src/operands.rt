// The operands of an instruction. Its line is bad, so that what could be wrong last of all is wrong if nothing before is.
use crate::mistake::{Mistake, Wrong};
use crate::splitting::split_name;
use crate::table::Labels;
use crate::terms::sum;
use opcode::Form;
use std::convert::Infallible;

// How deep parentheses nest.
const DEPTH: u8 = 16;

// An operand or a comma, with the spaces before it skipped.
fn operand(rest: &[u8]) -> Result<&[u8], Wrong<'_>> {
    let rest = rest.trim_ascii_start();
    if rest.is_empty() {
        return Err(Mistake::NoOperand.at(rest));
    }
    Ok(rest)
}

// What is behind a comma.
fn comma(rest: &[u8]) -> Result<&[u8], Wrong<'_>> {
    match operand(rest)? {
        [b',', behind @ ..] => Ok(behind),
        rest => Err(Mistake::NoComma.at(rest)),
    }
}

fn is_register(name: &[u8]) -> bool {
    matches!(name, [b'R', b'0'..=b'9'] | [b'R', b'1', b'0'..=b'5'])
}

// What is behind a register.
fn register(rest: &[u8]) -> Result<&[u8], Wrong<'_>> {
    let rest = operand(rest)?;
    let (name, behind) = split_name(rest);
    if is_register(name) {
        Ok(behind)
    } else {
        Err(Mistake::NoRegister.at(rest))
    }
}

// What is behind a register and so many more, with commas between.
fn registers(rest: &[u8], more: u8) -> Result<&[u8], Wrong<'_>> {
    let mut rest = register(rest)?;
    for _ in 0..more {
        rest = register(comma(rest)?)?;
    }
    Ok(rest)
}

// After the last operand.
fn end(rest: &[u8]) -> Result<Infallible, Wrong<'_>> {
    Err(Mistake::TooMuch.at(rest.trim_ascii_start()))
}

// An immediate, from the comma before it on; `large` is the mistake if it does not fit its field.
fn immediate<'a>(
    rest: &'a [u8],
    labels: Labels<'_>,
    large: Mistake,
) -> Result<Infallible, Wrong<'a>> {
    let start = operand(comma(rest)?)?;
    let (value, rest) = sum(start, labels, DEPTH)?;
    if rest.is_empty() {
        Err(large.of(value, start))
    } else {
        Err(Mistake::TooMuch.at(rest))
    }
}

fn checked<'a>(
    rest: &'a [u8],
    labels: Labels<'_>,
    before: u64,
    form: Form,
) -> Result<Infallible, Wrong<'a>> {
    match form {
        Form::R => end(registers(rest, 2)?),
        Form::I | Form::S => immediate(registers(rest, 1)?, labels, Mistake::LargeImmediate),
        Form::Shift => immediate(registers(rest, 1)?, labels, Mistake::LargeAmount),
        Form::B => immediate(
            registers(rest, 1)?,
            labels.counted_from(before),
            Mistake::LargeImmediate,
        ),
        Form::J => immediate(
            registers(rest, 0)?,
            labels.counted_from(before),
            Mistake::LargeOffset,
        ),
        Form::Alone => end(rest),
    }
}

// From behind the name of an instruction on, which has `before` before it.
pub fn operands<'a>(rest: &'a [u8], labels: Labels<'_>, before: u64, form: Form) -> Wrong<'a> {
    match checked(rest, labels, before, form) {
        Ok(never) => match never {},
        Err(wrong) => wrong,
    }
}
