// The bytes of a state, written.
ghost use Rattle.std.specs.Prelude.{◌≡◌, ◌++◌, ◌+◌, ◌≤◌, length};
ghost use Rattle.std.proofs.lemmas.List.Edits.{sets};
ghost use Rattle.memory.specs.Bytes.{bytes};
ghost use Rattle.state.specs.Held.{held_of};
ghost use Rattle.layout.specs.Layout.{HEADER_BYTES, STATE_BYTES, record_bytes, records, state_bytes, written};
ghost use Rattle.layout.specs.Numbers.{numbers_of};

use crate::records::Record;
use crate::{HEADER_BYTES, LIMB_LIMIT, RECORD_BYTES, STATE_BYTES};
use memory::bytes::{bit, put_number};
use state::State;
use state::registers::Registers;

fn record_of(waits: bool, v: u64, bound: u8) -> Record
    ensures { numbers_of result ≡ record_bytes (held_of waits v) bound }
{
    let noted = 256 * bound as u64;
    if waits {
        return Record {
            head: noted + 1,
            first: v % LIMB_LIMIT,
            second: v / LIMB_LIMIT,
        };
    }
    Record {
        head: noted,
        first: v,
        second: 0,
    }
}

// The mark and its zeros are one number too.
fn put_header(into: &mut [u8], pc: u64, mark: u64)
    ensures { into.new ≡ sets into.old 0 (bytes 8 pc ++ bytes 8 mark) }
{
    put_number(into, 0, 8, pc);
    put_number(into, 8, 8, mark);
}

pub(crate) fn put_three(into: &mut [u8], at: usize, a: u64, b: u64, c: u64)
    requires { at + 24 ≤ length into.old }
    ensures { into.new ≡ sets into.old at (bytes 8 a ++ (bytes 8 b ++ bytes 8 c)) }
{
    put_number(into, at, 8, a);
    put_number(into, at + 8, 8, b);
    put_number(into, at + 16, 8, c);
}

fn put_records(bytes: &mut [u8], registers: &Registers)
    requires { length bytes.old ≡ STATE_BYTES }
    ensures { bytes.new ≡ sets bytes.old HEADER_BYTES (records 16 0 registers.now) }
{
    for i in 0..16 {
        let r = record_of(
            registers.accumulated[i],
            registers.values[i],
            registers.bounds[i],
        );
        put_three(
            bytes,
            HEADER_BYTES + RECORD_BYTES * i,
            r.head,
            r.first,
            r.second,
        );
    }
}

// Bytes of another length aren't written.
pub fn write_state(bytes: &mut [u8], s: State)
    ensures { bytes.new ≡ written STATE_BYTES (state_bytes s) bytes.old }
{
    if bytes.len() != STATE_BYTES {
        return;
    }
    put_header(bytes, s.pc, bit(s.halted) as u64);
    put_records(bytes, &s.registers);
}
