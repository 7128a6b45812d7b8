// A leg of a run: the one loop over which all runs go. It has no list in it: the checks that end it are given back, for a caller
// that lists them.
ghost use Rattle.std.specs.Prelude.{◌≡◌, ◌&&◌, ◌≤◌};
ghost use Rattle.pending.specs.Pending.{checks_of};
ghost use Rattle.execute.specs.World.{world_of};
ghost use Rattle.execute.specs.Rules.{rules_of};
ghost use Rattle.execute.specs.Starts.{advanced, started};
ghost use Rattle.step.specs.Step.{step_in, goes_on, counted};
ghost use Rattle.step.specs.Leg.{unlisted, leg_in, gone};

use execute::{Advance, Choices, Start, Went, word};
use pending::{Check, Room};
use state::State;
use state::registers::Registers;

// How the last step went, the steps, the checks that the last one asks for, and its pc.
#[derive(Clone, Copy)]
pub struct Gone {
    pub went: Went,
    pub steps: u64,
    pub checks: Option<Check>,
    pub pc: u64,
    pub state: State,
}

pub fn goes_on(went: Went) -> bool
    ensures { result ≡ goes_on went }
{
    match went {
        Went::On => true,
        Went::Ebreak => false,
        Went::Ecall => false,
        Went::Refused(_) => false,
    }
}

fn counted(went: Went) -> u64
    ensures { (result ≡ counted went) × (result ≤ 1) }
{
    match went {
        Went::On => 1,
        Went::Ebreak => 1,
        Went::Ecall => 1,
        Went::Refused(_) => 0,
    }
}

// Whether there is nothing to be listed.
fn unlisted(checks: Option<Check>, room: Room) -> bool
    ensures { result ≡ unlisted (checks_of checks) room }
{
    match checks {
        None => true,
        Some(_) => match room {
            Room::Unlent => true,
            Room::Left(_) => false,
        },
    }
}

fn passes(went: Went, checks: Option<Check>, room: Room) -> bool
    ensures { result ≡ (goes_on went && unlisted (checks_of checks) room) }
{
    if !goes_on(went) {
        return false;
    }
    unlisted(checks, room)
}

// One step over lent registers and memory.
fn step_in(start: Start, registers: &mut Registers, m: &mut [u8]) -> Advance
    ensures { advanced result registers.new m.new ≡ step_in start.choices.mode start.room (rules_of start.choices) (started start registers.old m.old) }
{
    match memory::fetch(m, start.pc) {
        Ok(word) => word::obey(start, word, registers, m),
        Err(r) => execute::refuse(start, r),
    }
}

// At most `fuel` steps, up to and with the first that has something to list. 9 is tested by the caller.
pub fn advance(choices: Choices, room: Room, s: State, fuel: u64, m: &mut [u8]) -> Gone
    ensures { gone result m.new ≡ leg_in fuel choices.mode room (rules_of choices) (world_of s m.old) }
{
    let mut registers = s.registers;
    let mut pc = s.pc;
    let mut halted = s.halted;
    for n in 0..fuel {
        let start = Start {
            choices,
            room,
            pc,
            halted,
        };
        let a = step_in(start, &mut registers, m);
        let went = a.went;
        let checks = a.checks;
        if !passes(went, checks, room) {
            let steps = n + counted(went);
            return Gone {
                went,
                steps,
                checks,
                pc,
                state: state::together(a.pc, a.halted, registers),
            };
        }
        pc = a.pc;
        halted = a.halted;
    }
    Gone {
        went: Went::On,
        steps: fuel,
        checks: None,
        pc,
        state: state::together(pc, halted, registers),
    }
}
