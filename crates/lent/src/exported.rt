// A step of a state that a host over C lends, as a record of numbers.
ghost use Rattle.std.specs.Prelude.{◌≡◌, ◌&&◌, leb};
ghost use Rattle.state.specs.Formed.{all_below};
ghost use Rattle.checks.specs.Records.{listed};
ghost use Rattle.lent.specs.Lent.{mark_fits, laid, state_of_lent, lent_of, record_after, lent_step, step_lent};
ghost use Rattle.lent.specs.Inner.{readied, concluded};

use checks::Pending;
use execute::{Choices, Mode, Went};
use host::mode_of;
use memory::bytes::bit;
use run::legs::stop_of;
use state::State;
use state::registers::Registers;
use step::OneStep;

// Mark and kinds are 0 or 1. The values are kept as the state keeps them: of an accumulated register low + 2^30 * high.
#[repr(C)]
#[derive(Clone, Copy)]
pub struct Lent {
    pub pc: u64,
    pub halted: u8,
    pub kinds: [u8; 16],
    pub bounds: [u8; 16],
    pub values: [u64; 16],
}

// The stop's code, 0 where the run goes on; its particular; and the count of the list.
#[repr(C)]
#[derive(Clone, Copy)]
pub struct StepAnswer {
    pub code: u64,
    pub particular: u64,
    pub count: usize,
}

#[derive(Clone, Copy)]
struct Ready {
    choices: Choices,
    state: State,
}

#[derive(Clone, Copy)]
struct Done {
    answer: StepAnswer,
    lent: Lent,
}

fn kinds_fit(kinds: &[u8; 16]) -> bool
    ensures { result ≡ all_below (mark_fits kinds.now) 16 }
{
    for kind in *kinds {
        if 1 < kind {
            return false;
        }
    }
    true
}

fn lent_taken(r: Lent, mode: u64) -> bool
    ensures { result ≡ (leb mode 1 && laid r) }
{
    if 1 < mode {
        return false;
    }
    if 1 < r.halted {
        return false;
    }
    let kinds = r.kinds;
    kinds_fit(&kinds)
}

fn state_of_lent(r: Lent) -> State
    ensures { result ≡ state_of_lent r }
{
    let kinds = r.kinds;
    let mut accumulated = [false; 16];
    for i in 0..16 {
        accumulated[i] = kinds[i] == 1;
    }
    let values = r.values;
    let bounds = r.bounds;
    let registers = Registers {
        values,
        accumulated,
        bounds,
    };
    state::together(r.pc, r.halted == 1, registers)
}

fn lent_of(s: State) -> Lent
    ensures { result ≡ lent_of s }
{
    let registers = s.registers;
    let mut kinds = [0; 16];
    for i in 0..16 {
        kinds[i] = bit(registers.accumulated[i]);
    }
    Lent {
        pc: s.pc,
        halted: bit(s.halted),
        kinds,
        bounds: registers.bounds,
        values: registers.values,
    }
}

// Of a record or mode that the rules forbid, a state that every step refuses: its R0 has a bound.
fn prepare(r: Lent, mode: u64) -> Ready
    ensures { result ≡ readied r mode }
{
    if !lent_taken(r, mode) {
        let registers = Registers {
            values: [0; 16],
            accumulated: [false; 16],
            bounds: [1; 16],
        };
        return Ready {
            choices: Choices {
                mode: Mode::Deferred,
            },
            state: state::together(0, false, registers),
        };
    }
    let mode = mode_of(mode);
    let state = state_of_lent(r);
    Ready {
        choices: Choices { mode },
        state,
    }
}

// A refused step leaves the record as it was.
fn record_after(r: Lent, went: Went, s: State) -> Lent
    ensures { result ≡ record_after r went s }
{
    match went {
        Went::On => lent_of(s),
        Went::Ebreak => lent_of(s),
        Went::Ecall => lent_of(s),
        Went::Refused(_) => r,
    }
}

fn conclude(r: Lent, d: OneStep) -> Done
    ensures { result ≡ concluded r d }
{
    let went = d.went;
    let state = d.state;
    let lent = record_after(r, went, state);
    let stop = stop_of(went);
    let answer = StepAnswer {
        code: refusal::code_of(stop),
        particular: refusal::particular_at(stop),
        count: d.count,
    };
    Done { answer, lent }
}

// Mode 0 is plain, 1 deferred. Code 9 where an argument is malformed; then nothing has changed.
#[unsafe(no_mangle)]
pub extern "C" fn zkir_step(
    state: &mut Lent,
    memory: &mut [u8],
    list: &mut [Pending],
    count: usize,
    mode: u64,
) -> StepAnswer
    ensures { lent_step result state.new memory.new (listed result.count list.new) ≡ step_lent mode state.old memory.old (listed count list.old) }
{
    let old = *state;
    let a = prepare(old, mode);
    let r = checked::step(a.choices, a.state, memory, list, count);
    let d = conclude(old, r);
    *state = d.lent;
    d.answer
}
