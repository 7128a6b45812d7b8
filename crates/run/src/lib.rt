// The fuelled run, in both modes.
#![tactic(auto)]

ghost use Rattle.std.specs.Prelude.{◌≡◌, ◌+◌, ◌^◌, ◌<◌};
ghost use Rattle.execute.specs.World.{world_of};
ghost use Rattle.execute.specs.Rules.{document_rules};
ghost use Rattle.execute.specs.declared.Mode.TheVariants.{Plain, Deferred};
ghost use Rattle.pending.specs.Pending.{lists};
ghost use Rattle.run.specs.Run.{run, ran};
ghost use Rattle.run.specs.Legs.{comes_to};

use execute::{Choices, Mode};
use legs::Going;
use pending::room_at;
use refusal::Stop;
use state::State;
use step::{leg, takes};

pub mod legs; // legs.rt: a run as its legs

#[derive(Clone, Copy)]
pub struct Ran {
    pub stop: Stop,
    pub steps: u64,
    pub count: usize,
    pub state: State,
}

// The legs of a run on its way, what they ask for listed.
fn go(
    begun: Going,
    m: &mut [u8],
    values: &mut [u64],
    bounds: &mut [u8],
    pcs: &mut [u64],
    count: usize,
) -> Ran
    requires { begun.steps + begun.left < 2 ^ 64 }
    ensures { ran result m.new values.new bounds.new pcs.new ≡ comes_to begun m.old (lists count values.old bounds.old pcs.old) }
{
    let mut r = begun;
    let mut listed = count;
    while r.on {
        let choices = r.choices;
        let s = r.state;
        let g = leg::advance(choices, room_at(values.len(), listed), s, r.left, m);
        let checks = g.checks;
        listed = pending::list(values, bounds, pcs, listed, checks, g.pc);
        r = legs::next(r, g);
    }
    let stop = r.stop;
    let state = r.state;
    Ran {
        stop,
        steps: r.steps,
        count: listed,
        state,
    }
}

// The run in a mode.
fn run_in(
    mode: Mode,
    s: State,
    fuel: u64,
    m: &mut [u8],
    values: &mut [u64],
    bounds: &mut [u8],
    pcs: &mut [u64],
    count: usize,
) -> Ran
    ensures { ran result m.new values.new bounds.new pcs.new ≡ run mode document_rules fuel (world_of s m.old) (lists count values.old bounds.old pcs.old) }
{
    let taken = takes(mode, s, values.len(), bounds.len(), pcs.len(), count);
    let begun = legs::begin(Choices { mode }, s, fuel, taken);
    go(begun, m, values, bounds, pcs, count)
}

// The plain run.
pub fn run_plain(
    s: State,
    fuel: u64,
    m: &mut [u8],
    values: &mut [u64],
    bounds: &mut [u8],
    pcs: &mut [u64],
    count: usize,
) -> Ran
    ensures { ran result m.new values.new bounds.new pcs.new ≡ run Plain document_rules fuel (world_of s m.old) (lists count values.old bounds.old pcs.old) }
{
    run_in(Mode::Plain, s, fuel, m, values, bounds, pcs, count)
}

// The deferred run.
pub fn run_deferred(
    s: State,
    fuel: u64,
    m: &mut [u8],
    values: &mut [u64],
    bounds: &mut [u8],
    pcs: &mut [u64],
    count: usize,
) -> Ran
    ensures { ran result m.new values.new bounds.new pcs.new ≡ run Deferred document_rules fuel (world_of s m.old) (lists count values.old bounds.old pcs.old) }
{
    run_in(Mode::Deferred, s, fuel, m, values, bounds, pcs, count)
}
