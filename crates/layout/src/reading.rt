// The state in some bytes, well laid or not, and which it is: one pass over the records.
ghost use Rattle.std.specs.Prelude.{◌≡◌, ◌&&◌, ◌≤◌};
ghost use Rattle.state.specs.Held.{kept};
ghost use Rattle.layout.specs.Layout.{STATE_BYTES, held_by, numbers_fit, state_in};
ghost use Rattle.layout.specs.Reading.{header_laid, record_parts, parts_at, parts_laid, read_in};

use crate::records::{Record, numbers_at};
use crate::{HEADER_BYTES, LIMB_LIMIT, RECORD_BYTES, STATE_BYTES};
use memory::bytes::number_at;
use state::State;
use state::registers::Registers;

// The parts of a register's record.
#[derive(Clone, Copy)]
struct RecordParts {
    kind: u8,
    bound: u8,
    zeros: u64,
    first: u64,
    second: u64,
}

// The state, and whether the bytes are well laid.
#[derive(Clone, Copy)]
pub struct Reading {
    pub state: State,
    pub laid: bool,
}

fn record_parts(r: Record) -> RecordParts
    ensures { result ≡ record_parts r }
{
    RecordParts {
        kind: (r.head % 0x100) as u8,
        bound: (r.head / 0x100 % 0x100) as u8,
        zeros: r.head / 0x1_0000,
        first: r.first,
        second: r.second,
    }
}

fn parts_at(bytes: &[u8], at: usize) -> RecordParts
    requires { at ≤ STATE_BYTES }
    ensures { result ≡ parts_at bytes.now at }
{
    record_parts(numbers_at(bytes, at))
}

// How the register is kept.
fn kept_by(kind: u8, first: u64, second: u64) -> u64
    ensures { result ≡ kept (held_by kind first second) }
{
    if kind != 1 {
        return first;
    }
    first % LIMB_LIMIT + LIMB_LIMIT * (second % LIMB_LIMIT)
}

fn numbers_fit(kind: u8, first: u64, second: u64) -> bool
    ensures { result ≡ numbers_fit kind first second }
{
    if kind == 1 {
        if LIMB_LIMIT <= first {
            return false;
        }
        return second < LIMB_LIMIT;
    }
    if kind != 0 {
        return false;
    }
    second == 0
}

fn parts_laid(p: RecordParts) -> bool
    ensures { result ≡ parts_laid p }
{
    if p.zeros != 0 {
        return false;
    }
    numbers_fit(p.kind, p.first, p.second)
}

// The mark, 0 or 1, and its seven zeros are one number below 2.
fn header_laid(bytes: &[u8]) -> bool
    ensures { result ≡ header_laid bytes.now }
{
    if bytes.len() != STATE_BYTES {
        return false;
    }
    number_at(bytes, 8, 8) < 2
}

fn both(a: bool, b: bool) -> bool
    ensures { result ≡ (a && b) }
{
    if a { b } else { false }
}

// A caller that has tested the length gets the numbers by one load each. Three arrays, put together at the end: where the struct is
// filled in place, the compiler makes a slower loop of a run.
pub fn read(bytes: &[u8]) -> Reading
    ensures { result ≡ read_in bytes.now }
{
    let mut values = [0; 16];
    let mut accumulated = [false; 16];
    let mut bounds = [0; 16];
    let mut laid = header_laid(bytes);
    for i in 0..16 {
        let p = parts_at(bytes, HEADER_BYTES + RECORD_BYTES * i);
        values[i] = kept_by(p.kind, p.first, p.second);
        accumulated[i] = p.kind == 1;
        bounds[i] = p.bound;
        laid = both(parts_laid(p), laid);
    }
    let registers = Registers {
        values,
        accumulated,
        bounds,
    };
    let pc = number_at(bytes, 0, 8);
    let halted = number_at(bytes, 8, 1) == 1;
    let state = state::together(pc, halted, registers);
    Reading { state, laid }
}

pub fn read_state(bytes: &[u8]) -> State
    ensures { result ≡ state_in bytes.now }
{
    let r = read(bytes);
    r.state
}
