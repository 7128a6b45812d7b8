// The bytes that a host lends. Those of a state: pc (8), halt mark, 7 zeros; then for each register kind, bound, 6 zeros, two
// numbers (8 each).
#![tactic(auto)]

pub mod answer; // answer.rt: the bytes of an answer
pub mod laid; // laid.rt: which bytes are those of a state
mod records; // records.rt: a register's record as three numbers
pub mod reading; // reading.rt: the state in the bytes, and whether they are those of a state
pub mod writing; // writing.rt: the bytes of a state

pub const HEADER_BYTES: usize = 16;

pub const RECORD_BYTES: usize = 24;

pub const STATE_BYTES: usize = HEADER_BYTES + 16 * RECORD_BYTES;

// Limbs are below 2^30.
pub(crate) const LIMB_LIMIT: u64 = 0x4000_0000;
