// What the two programs share: memory read from standard input, a run of it, and the lines that they print. No contract can say what a
// program reads or writes, so this promises nothing; what is printed is tested.
#![tactic(auto)]

use execute::Mode;
use refusal::{Refusal, Stop};
use run::Ran;
use state::State;
use std::{fmt, io};

pub const FUEL: u64 = 1_000_000;

const MEMORY: usize = 65_536;

// How a run went, as the first line says it.
#[derive(Clone, Copy)]
struct Stopped {
    stop: Stop,
    steps: u64,
    pc: u64,
}

impl fmt::Display for Stopped {
    fn fmt<W: fmt::Write>(&self, f: &mut fmt::Formatter<W>) -> fmt::Result {
        match self.stop {
            Stop::Fuel => write!(f, "stop fuel")?,
            Stop::Ebreak => write!(f, "stop ebreak")?,
            Stop::Ecall => write!(f, "stop ecall")?,
            Stop::Refused(r) => write!(f, "refused {}", refusal::number_of(r))?,
        }
        write!(f, " steps {} pc {}", self.steps, self.pc)
    }
}

// The registers whose value is not zero, upwards.
fn print_registers(rt: &impl Print, s: State) -> io::Result<()> {
    for n in 0..16u8 {
        let value = s.registers.value_at(n);
        if value != 0 {
            println!(rt; "R{n} {value}")?;
        }
    }
    Ok(())
}

fn run_in(mode: Mode, memory: &mut [u8]) -> Ran {
    let fresh = state::fresh(0);
    match mode {
        Mode::Plain => run::run_plain(fresh, FUEL, memory, &mut [], &mut [], &mut [], 0),
        Mode::Deferred => run::run_deferred(fresh, FUEL, memory, &mut [], &mut [], &mut [], 0),
    }
}

// Runs the program on standard input from a fresh state, and prints how it stopped and the registers. More than memory holds is
// refused.
pub fn run_program(rt: &(impl Print + Input + AllocGlobal), mode: Mode) -> io::Result<()> {
    let Some(mut memory) = input::read_at_most(rt.alloc(), &mut rt.reader(), MEMORY)? else {
        let stop = Stop::Refused(Refusal::Malformed);
        return println!(rt;
            "{}",
            Stopped {
                stop,
                steps: 0,
                pc: 0
            }
        );
    };
    memory.resize(MEMORY, 0)?;
    let ran = run_in(mode, &mut memory);
    let stop = ran.stop;
    let steps = ran.steps;
    let after = ran.state;
    let pc = after.pc;
    println!(rt; "{}", Stopped { stop, steps, pc })?;
    print_registers(rt, after)
}
