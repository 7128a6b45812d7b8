// What was met, counted and printed.
use crate::replay::Differences;
use std::{fmt, io};

// So many lines that differ are named, and so many malformed ones.
const NAMED: u64 = 20;

#[derive(Clone, Copy, Default)]
pub struct Tally {
    calls: u64,
    listed: u64,
    differing: u64,
    malformed: u64,
}

impl Tally {
    pub fn note_malformed(&mut self, rt: &impl Print, line: u64) -> io::Result<()> {
        if self.malformed < NAMED {
            println!(rt; "line {line} is malformed")?;
        }
        self.malformed = self.malformed.saturating_add(1);
        Ok(())
    }

    pub fn note_compared(
        &mut self,
        rt: &impl Print,
        line: u64,
        is_listed: bool,
        differences: Differences,
    ) -> io::Result<()> {
        let differs = differences.any();
        if differs && self.differing < NAMED {
            println!(rt; "line {line} differs:{differences}")?;
        }
        self.calls = self.calls.saturating_add(1);
        self.listed = self.listed.saturating_add(u64::from(is_listed));
        self.differing = self.differing.saturating_add(u64::from(differs));
        Ok(())
    }
}

// A list with no call in it says so.
impl fmt::Display for Tally {
    fn fmt<W: fmt::Write>(&self, f: &mut fmt::Formatter<W>) -> fmt::Result {
        let Tally {
            calls,
            listed,
            differing,
            malformed,
        } = *self;
        if calls == 0 {
            write!(f, "vectors: nothing was compared")?;
        } else {
            write!(
                f,
                "vectors: {calls} calls, {listed} with lists: {differing} differ"
            )?;
        }
        write!(f, ", {malformed} lines malformed")
    }
}
