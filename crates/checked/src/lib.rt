// Step and run over a lent list of records, in both modes: the legs of `run`, and what they ask for listed here.
#![tactic(auto)]

ghost use Rattle.std.specs.Prelude.{◌≡◌, ◌+◌, ◌<◌, ◌^◌};
ghost use Rattle.execute.specs.World.{world_of};
ghost use Rattle.execute.specs.Rules.{rules_of};
ghost use Rattle.pending.specs.Pending.{checks_of, listing};
ghost use Rattle.step.specs.Step.{step};
ghost use Rattle.run.specs.Run.{run};
ghost use Rattle.run.specs.Legs.{comes_to};
ghost use Rattle.checks.specs.Records.{listed};
ghost use Rattle.checked.specs.Machine.{stepped_over, ran_over};

use checks::{Pending, note_at};
use execute::{Choices, Went};
use pending::{Check, room_at};
use refusal::Refusal;
use run::legs::Going;
use run::{Ran, legs};
use state::State;
use step::{OneStep, leg, takes};

// Lists the checks of a step at a pc, and answers the count then.
fn note(list: &mut [Pending], count: usize, checks: Option<Check>, pc: u64) -> usize
    ensures { listed result list.new ≡ listing (checks_of checks) pc (listed count list.old) }
{
    match checks {
        None => count,
        Some(Check { bound, value }) => {
            if list.len() <= count {
                return count;
            }
            note_at(list, count, Pending { value, bound, pc });
            count + 1
        }
    }
}

// A single step, as `step::step`.
pub fn step(choices: Choices, s: State, m: &mut [u8], list: &mut [Pending], count: usize) -> OneStep
    ensures { stepped_over result m.new list.new ≡ step choices.mode (rules_of choices) (world_of s m.old) (listed count list.old) }
{
    let mode = choices.mode;
    let room = list.len();
    if !takes(mode, s, room, room, room, count) {
        return OneStep {
            went: Went::Refused(Refusal::Malformed),
            count,
            state: s,
        };
    }
    let g = leg::advance(choices, room_at(room, count), s, 1, m);
    let checks = g.checks;
    let count = note(list, count, checks, g.pc);
    let went = g.went;
    let state = g.state;
    OneStep { went, count, state }
}

// The legs of a run on its way, what they ask for listed.
fn go(begun: Going, m: &mut [u8], list: &mut [Pending], count: usize) -> Ran
    requires { begun.steps + begun.left < 2 ^ 64 }
    ensures { ran_over result m.new list.new ≡ comes_to begun m.old (listed count list.old) }
{
    let mut r = begun;
    let mut count = count;
    while r.on {
        let choices = r.choices;
        let s = r.state;
        let g = leg::advance(choices, room_at(list.len(), count), s, r.left, m);
        let checks = g.checks;
        count = note(list, count, checks, g.pc);
        r = legs::next(r, g);
    }
    let stop = r.stop;
    let state = r.state;
    Ran {
        stop,
        steps: r.steps,
        count,
        state,
    }
}

// The run, as `run::run_plain` and `run::run_deferred`.
pub fn run(
    choices: Choices,
    s: State,
    fuel: u64,
    m: &mut [u8],
    list: &mut [Pending],
    count: usize,
) -> Ran
    ensures { ran_over result m.new list.new ≡ run choices.mode (rules_of choices) fuel (world_of s m.old) (listed count list.old) }
{
    let mode = choices.mode;
    let room = list.len();
    let taken = takes(mode, s, room, room, room, count);
    go(legs::begin(choices, s, fuel, taken), m, list, count)
}
