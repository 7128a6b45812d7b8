// One given instruction, in the plain mode and in the deferred one.
#![tactic(auto)]

ghost use Rattle.std.specs.Prelude.{None, ◌≡◌};
ghost use Rattle.refusal.specs.Stops.{refusal_of};
ghost use Rattle.words.specs.Words.{decode_in};
ghost use Rattle.pending.specs.declared.Room.TheVariants.{Unlent};
ghost use Rattle.execute.specs.World.{world_of};
ghost use Rattle.execute.specs.Rules.{rules_of, obey};
ghost use Rattle.execute.specs.declared.Went.TheVariants.{Refused};
ghost use Rattle.given.specs.Given.{execute_one, executed};

use execute::word::obey;
use execute::{Choices, Start, Went, admits};
use instruction::Instruction;
use pending::{Check, Room};
use refusal::Refusal;
use state::State;

#[derive(Clone, Copy)]
pub struct Executed {
    pub went: Went,
    pub checks: Option<Check>,
    pub state: State,
}

fn malformed(s: State) -> Executed
    ensures { result ≡ record { went = Refused (refusal_of 9 0); checks = None; state = s } }
{
    Executed {
        went: Went::Refused(Refusal::Malformed),
        checks: None,
        state: s,
    }
}

fn execute_word(choices: Choices, word: u32, s: State, m: &mut [u8]) -> Executed
    ensures { executed result m.new ≡ obey choices.mode Unlent (rules_of choices) (decode_in (rules_of choices).number word) (world_of s m.old) }
{
    let mut registers = s.registers;
    let start = Start {
        choices,
        room: Room::Unlent,
        pc: s.pc,
        halted: s.halted,
    };
    let a = obey(start, word, &mut registers, m);
    let went = a.went;
    let checks = a.checks;
    Executed {
        went,
        checks,
        state: state::together(a.pc, a.halted, registers),
    }
}

// One given instruction, on a state by value: its word is obeyed. No list of checks is lent: those that it asks for are in the answer.
pub fn execute(choices: Choices, i: Instruction, s: State, m: &mut [u8]) -> Executed
    ensures { executed result m.new ≡ execute_one choices.mode (rules_of choices).notes i (world_of s m.old) }
{
    let mode = choices.mode;
    if !admits(mode, &s.registers) {
        return malformed(s);
    }
    match words::encode(i) {
        Ok(word) => execute_word(choices, word, s, m),
        Err(_) => malformed(s),
    }
}
