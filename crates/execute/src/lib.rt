// A word obeyed, in the plain mode and in the deferred one.
#![tactic(auto)]

ghost use Rattle.std.specs.Prelude.{None, ◌≡◌};
ghost use Rattle.execute.specs.Execute.{admits};
ghost use Rattle.execute.specs.declared.Went.TheVariants as W;

use pending::{Check, Room};
use refusal::Refusal;
use state::registers::Registers;

mod alone; // alone.rt: Ecall and Ebreak
mod branch; // branch.rt: the branches
mod carrying; // carrying.rt: what the forms share
mod immediate; // immediate.rt: a register and an immediate
mod jump; // jump.rt: Jal
mod registers; // registers.rt: two registers
mod store; // store.rt: the stores
pub mod word; // word.rt: a word obeyed by its form

// Data, and no type parameter or closure, which would make a second copy of a run's loop.
#[derive(Clone, Copy)]
pub enum Mode {
    Plain,
    Deferred,
}

// What whoever runs the machine chooses.
#[derive(Clone, Copy)]
pub struct Choices {
    pub mode: Mode,
}

#[derive(Clone, Copy)]
pub enum Went {
    On,
    Ebreak,
    Ecall,
    Refused(Refusal),
}

// What a step needs beside the registers and the memory, which are lent to it.
#[derive(Clone, Copy)]
pub struct Start {
    pub choices: Choices,
    pub room: Room,
    pub pc: u64,
    pub halted: bool,
}

// What it leaves beside them.
#[derive(Clone, Copy)]
pub struct Advance {
    pub went: Went,
    pub pc: u64,
    pub halted: bool,
    pub checks: Option<Check>,
}

// A step that is refused leaves everything as it was.
pub fn refuse(start: Start, r: Refusal) -> Advance
    ensures { result ≡ record { went = W.Refused r; pc = start.pc; halted = start.halted; checks = None } }
{
    Advance {
        went: Went::Refused(r),
        pc: start.pc,
        halted: start.halted,
        checks: None,
    }
}

// Whether the mode takes such registers: well-formed ones, and in the plain mode none that is accumulated.
pub fn admits(mode: Mode, registers: &Registers) -> bool
    ensures { result ≡ admits mode registers.now }
{
    if !registers.well_formed() {
        return false;
    }
    match mode {
        Mode::Plain => registers.all_whole(),
        Mode::Deferred => true,
    }
}
