// What C calls of the crate `exports`, as a static library: each function passes on the one of the same name there, and promises what
// that promises.
#![tactic(auto)]

pub mod coding; // coding.rt: decoder and encoder
pub mod limbs; // limbs.rt: normalize.rs
pub mod lists; // lists.rt: pending checks
