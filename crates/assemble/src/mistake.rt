// What can be wrong with a line, and how a bad line is told.
use std::fmt;

// Numbered as in docs/mistakes.txt.
#[derive(Clone, Copy)]
pub enum Mistake {
    ForeignByte = 1,
    NoName,
    NotAlone,
    DefinedAgain,
    NoInstruction,
    NoOperand,
    NoRegister,
    NoComma,
    NoTerm,
    LoneSign,
    LargeNumber,
    UnknownLabel,
    TooDeep,
    NotClosed,
    LargeSum,
    TooMuch,
    LargeImmediate,
    LargeOffset,
    LargeAmount,
}

impl Mistake {
    pub fn at(self, rest: &[u8]) -> Wrong<'_> {
        Wrong {
            mistake: self,
            rest,
            value: None,
        }
    }

    pub fn of(self, value: i64, rest: &[u8]) -> Wrong<'_> {
        Wrong {
            mistake: self,
            rest,
            value: Some(value),
        }
    }
}

// A mistake, the line from it on, and the value that does not fit its field.
#[derive(Clone, Copy)]
pub struct Wrong<'a> {
    mistake: Mistake,
    rest: &'a [u8],
    value: Option<i64>,
}

// A line of a text by its number, and its first mistake.
#[derive(Drop)]
pub struct BadLine<'a> {
    pub number: u64,
    pub bytes: &'a [u8],
    pub wrong: Wrong<'a>,
}

impl fmt::Display for BadLine<'_> {
    fn fmt<W: fmt::Write>(&self, f: &mut fmt::Formatter<W>) -> fmt::Result {
        let number = self.number;
        let wrong = self.wrong;
        let mistake = wrong.mistake as u8;
        let column = (self.bytes.len() + 1).saturating_sub(wrong.rest.len());
        write!(f, "line {number} mistake {mistake} column {column}")?;
        if let Some(value) = wrong.value {
            write!(f, " value {value}")?;
        }
        Ok(())
    }
}
