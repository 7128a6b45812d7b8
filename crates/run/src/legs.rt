// A run as its legs: where it begins, and where it is after a leg. Whoever goes through the legs lists what each asks for, in its
// own form.
ghost use Rattle.std.specs.Prelude.{◌≡◌, ◌-◌};
ghost use Rattle.run.specs.Run.{stop_of};
ghost use Rattle.run.specs.Legs.{begun, next};

use execute::{Choices, Went};
use refusal::{Refusal, Stop};
use state::State;
use step::leg::{Gone, goes_on};

// A run on its way: whether it goes on, how many steps it may still take, and what it answers if it does not go on.
#[derive(Clone, Copy)]
pub struct Going {
    pub on: bool,
    pub choices: Choices,
    pub left: u64,
    pub stop: Stop,
    pub steps: u64,
    pub state: State,
}

pub fn stop_of(went: Went) -> Stop
    ensures { result ≡ stop_of went }
{
    match went {
        Went::On => Stop::Fuel,
        Went::Ebreak => Stop::Ebreak,
        Went::Ecall => Stop::Ecall,
        Went::Refused(r) => Stop::Refused(r),
    }
}

// `taken` says whether the arguments are such as a run takes: 9 otherwise.
pub fn begin(choices: Choices, s: State, fuel: u64, taken: bool) -> Going
    ensures { result ≡ begun choices s fuel taken }
{
    if !taken {
        return Going {
            on: false,
            choices,
            left: fuel,
            stop: Stop::Refused(Refusal::Malformed),
            steps: 0,
            state: s,
        };
    }
    Going {
        on: !s.halted,
        choices,
        left: fuel,
        stop: Stop::Ebreak,
        steps: 0,
        state: s,
    }
}

fn less(left: u64, steps: u64) -> u64
    ensures { result ≡ left - steps }
{
    if left < steps { 0 } else { left - steps }
}

// After a leg.
pub fn next(r: Going, g: Gone) -> Going
    ensures { result ≡ next r g }
{
    let choices = r.choices;
    let went = g.went;
    let state = g.state;
    let left = less(r.left, g.steps);
    Going {
        on: goes_on(went) & (0 < left),
        choices,
        left,
        stop: stop_of(went),
        steps: r.steps.wrapping_add(g.steps),
        state,
    }
}
