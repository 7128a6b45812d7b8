// What an instruction does, decided before anything changes, by its opcode, over the numbers that the form of its word reads: a
// table for each form.
#![tactic(auto)]

pub mod branch; // branch.rt: whether a branch is taken
pub mod immediate; // immediate.rt: a register and an immediate
pub mod registers; // registers.rt: two registers
pub mod store; // store.rt: how much a store stores
