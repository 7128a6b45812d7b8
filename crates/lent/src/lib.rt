// One thin entry that steps a state which its host lends.
#![tactic(auto)]

ghost use Rattle.std.specs.Prelude.{◌≡◌};
ghost use Rattle.execute.specs.World.{world_of};
ghost use Rattle.execute.specs.Rules.{rules_of};
ghost use Rattle.step.specs.Step.{left, step};
ghost use Rattle.checks.specs.Records.{listed};

use checks::Pending;
use execute::{Choices, Went};
use state::State;

pub mod exported; // exported.rt: the same for a host over C, as a record of numbers

#[derive(Clone, Copy)]
pub struct InPlace {
    pub went: Went,
    pub count: usize,
}

// The state is taken out, stepped by value and stored back.
pub fn step_in_place(
    s: &mut State,
    choices: Choices,
    m: &mut [u8],
    list: &mut [Pending],
    count: usize,
) -> InPlace
    ensures { left result.went (world_of s.new m.new) (listed result.count list.new) ≡ step choices.mode (rules_of choices) (world_of s.old m.old) (listed count list.old) }
{
    let old = *s;
    let r = checked::step(choices, old, m, list, count);
    *s = r.state;
    InPlace {
        went: r.went,
        count: r.count,
    }
}
