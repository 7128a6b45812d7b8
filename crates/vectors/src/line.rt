// A line of the list, as its bytes come: numbers, hexadecimal and one space apart, or a title. However long it is, it takes the same
// room.
use std::alloc::{AllocError, Global};

// More than a line in good form has, whatever its call.
const NUMBERS: usize = 1024;

#[derive(Clone, Copy)]
enum Kind {
    Numbers,
    Title,
    Malformed,
}

#[derive(Drop)]
pub struct Line {
    kind: Kind,
    // those that are whole
    numbers: Vec<u64>,
    // the digits since, as a number
    begun: Option<u64>,
}

// What a line was that has ended.
pub enum Ended<'a> {
    Title,
    Malformed,
    Numbers(&'a [u64]),
}

fn digit(byte: u8) -> Option<u64> {
    match byte {
        b'0'..=b'9' => Some(u64::from(byte - b'0')),
        b'a'..=b'f' => Some(u64::from(byte - b'a') + 10),
        _ => None,
    }
}

// A number with one more digit, where it is one and both fit.
fn with_digit(number: u64, byte: u8) -> Option<u64> {
    number.checked_mul(16)?.checked_add(digit(byte)?)
}

impl Line {
    pub fn new(alloc: Global) -> Self {
        Line {
            kind: Kind::Numbers,
            numbers: Vec::new(alloc),
            begun: None,
        }
    }

    // Whether no byte has come yet.
    pub fn is_empty(&self) -> bool {
        matches!(self.kind, Kind::Numbers) && self.numbers.is_empty() && self.begun.is_none()
    }

    // The digits since make a number.
    fn end_number(&mut self) -> Result<(), AllocError> {
        match self.begun {
            Some(number) if self.numbers.len() + 1 < NUMBERS => {
                self.numbers.push(number)?;
                self.begun = None;
            }
            _ => self.kind = Kind::Malformed,
        }
        Ok(())
    }

    fn begin_number(&mut self, byte: u8) {
        match with_digit(self.begun.unwrap_or(0), byte) {
            Some(number) => self.begun = Some(number),
            None => self.kind = Kind::Malformed,
        }
    }

    pub fn push(&mut self, byte: u8) -> Result<(), AllocError> {
        match (self.kind, byte) {
            (Kind::Title | Kind::Malformed, _) => {}
            (Kind::Numbers, b' ') => self.end_number()?,
            (Kind::Numbers, b'#') if self.is_empty() => self.kind = Kind::Title,
            (Kind::Numbers, _) => self.begin_number(byte),
        }
        Ok(())
    }

    // What was pushed since the last line.
    pub fn end(&mut self) -> Result<Ended<'_>, AllocError> {
        if let Kind::Numbers = self.kind {
            self.end_number()?;
        }
        Ok(match self.kind {
            Kind::Title => Ended::Title,
            Kind::Malformed => Ended::Malformed,
            Kind::Numbers => Ended::Numbers(&self.numbers),
        })
    }

    pub fn clear(&mut self) {
        self.kind = Kind::Numbers;
        self.numbers.clear();
        self.begun = None;
    }
}
