// What a host does not reach by `zkir_run`, exported over numbers and lent slices for the comparison with the Rust. Each
// function passes on the one that it is named after, behind `oracle_`, and promises what that promises.
#![tactic(auto)]

pub mod coding; // coding.rt: decoder and encoder
pub mod limbs; // limbs.rt: normalize.rs
pub mod lists; // lists.rt: pending checks
pub mod triple; // triple.rt: three numbers in bytes
