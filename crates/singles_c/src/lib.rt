// What C calls of the crate `singles`, as a static library: each function passes on the one of the same name there, and promises what
// that promises.
#![tactic(auto)]

pub mod bounds; // bounds.rt: notes of bits
pub mod values; // values.rt: 40-bit values, products, quotients, signs, addresses
pub mod words; // words.rt: fields, kinds, raw encoders
