// The machine's state and its registers.
#![tactic(auto)]

ghost use Rattle.std.specs.Prelude.{◌≡◌};
ghost use Rattle.state.specs.Formed.{fresh_at};

use registers::Registers;

pub mod registers; // registers.rt: the sixteen registers

#[derive(Clone, Copy)]
pub struct State {
    pub pc: u64,
    pub halted: bool,
    pub registers: Registers,
}

// A state put together.
pub fn together(pc: u64, halted: bool, registers: Registers) -> State
    ensures { result ≡ record { pc = pc; halted = halted; registers = registers } }
{
    State {
        pc,
        halted,
        registers,
    }
}

// "Fresh registers are whole 0, bound 0."
pub fn fresh(pc: u64) -> State
    ensures { result ≡ fresh_at pc }
{
    let registers = Registers {
        values: [0; 16],
        accumulated: [false; 16],
        bounds: [0; 16],
    };
    together(pc, false, registers)
}
