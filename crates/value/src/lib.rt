// What the instructions compute of 64-bit values: a module for each kind of arithmetic, each function total.
#![tactic(auto)]

pub mod forty; // the low 40 bits, as `Value40`
pub mod product; // Mulh
pub mod division; // Div, Divu, Rem, Remu
pub mod extension; // signs of loads, immediates and offsets
pub mod address; // register plus immediate, modulo 2^64
