// Words and instructions (document 01, "Words"): a word read, and an instruction's word made.
#![tactic(auto)]

pub mod decoder;
pub mod encoder;

pub use decoder::decode;
pub use encoder::{encode, encode_parts};
