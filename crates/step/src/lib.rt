// A single step: the word at the pc is fetched and obeyed, and the checks that it asks for are listed.
#![tactic(auto)]

ghost use Rattle.std.specs.Prelude.{◌≡◌, ◌&&◌};
ghost use Rattle.execute.specs.World.{world_of};
ghost use Rattle.execute.specs.Execute.{admits};
ghost use Rattle.execute.specs.Rules.{rules_of};
ghost use Rattle.pending.specs.Pending.{lists, lengths_fit};
ghost use Rattle.step.specs.Step.{step, one_step};

use execute::{Choices, Mode, Went};
use pending::room_at;
use refusal::Refusal;
use state::State;

pub mod leg; // leg.rt: the loop of a run, over which all runs go

#[derive(Clone, Copy)]
pub struct OneStep {
    pub went: Went,
    pub count: usize,
    pub state: State,
}

// Whether the mode and the lists take such arguments: 9 otherwise.
pub fn takes(mode: Mode, s: State, values: usize, bounds: usize, pcs: usize, count: usize) -> bool
    ensures { result ≡ (admits mode s.registers && lengths_fit values bounds pcs count) }
{
    if !execute::admits(mode, &s.registers) {
        return false;
    }
    pending::lists_fit(values, bounds, pcs, count)
}

// A single step. It ignores the halt mark; a refused one changes nothing.
pub fn step(
    choices: Choices,
    s: State,
    m: &mut [u8],
    values: &mut [u64],
    bounds: &mut [u8],
    pcs: &mut [u64],
    count: usize,
) -> OneStep
    ensures { one_step result m.new values.new bounds.new pcs.new ≡ step choices.mode (rules_of choices) (world_of s m.old) (lists count values.old bounds.old pcs.old) }
{
    let mode = choices.mode;
    if !takes(mode, s, values.len(), bounds.len(), pcs.len(), count) {
        return OneStep {
            went: Went::Refused(Refusal::Malformed),
            count,
            state: s,
        };
    }
    let g = leg::advance(choices, room_at(values.len(), count), s, 1, m);
    let checks = g.checks;
    let count = pending::list(values, bounds, pcs, count, checks, g.pc);
    let went = g.went;
    let state = g.state;
    OneStep { went, count, state }
}
