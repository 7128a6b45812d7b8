// Single functions of `encoding`, `value` and `bound`, exported over numbers for the comparison with the Rust. Each passes on
// the function that it is named after, behind `oracle_`, and promises what that promises.
#![tactic(auto)]

pub mod bounds; // bounds.rt: notes of bits
pub mod values; // values.rt: 40-bit values, products, quotients, signs, addresses
pub mod words; // words.rt: fields, kinds, raw encoders
