// Names in a text, and the table of labels.
#![tactic(auto)]

pub mod table; // table.rt: where a label's name stands, and how many instructions before it
pub mod text; // text.rt: bytes, and runs of them
