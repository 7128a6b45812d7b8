// One given instruction, one step, and a run with the three lists, over the bytes of a state, exported for the comparison with the
// Rust: `execute`, `step` and `run`. Bytes that are no state's and modes other than 0 and 1 are refused (9).
#![tactic(auto)]

ghost use Rattle.std.specs.Prelude.{◌≡◌};
ghost use Rattle.opcode.specs.Opcodes.{opcode_number, opcode_in};
ghost use Rattle.execute.specs.World.{world_of};
ghost use Rattle.execute.specs.Rules.{document_rules};
ghost use Rattle.pending.specs.Pending.{lists, checks_of};
ghost use Rattle.run.specs.Run.{run, ran};
ghost use Rattle.layout.specs.Layout.{STATE_BYTES, state_bytes, written};
ghost use Rattle.layout.specs.Answer.{ANSWER_BYTES};
ghost use Rattle.exports.specs.Triples.{tripled};
ghost use Rattle.exports.specs.Coding.{given_of};
ghost use Rattle.machines.specs.Machine.{went_triple, check_triple, stop_bytes, legible, given_call, executing, machine_call, stepping, running};

use execute::{Choices, Mode, Went};
use exports::coding;
use exports::triple::{Triple, refused, write_triple};
use host::mode_of;
use layout::answer::write_answer;
use layout::laid::well_laid;
use layout::reading::read_state;
use layout::writing::write_state;
use pending::Check;
use refusal::Refusal;
use run::Ran;
use run::legs::stop_of;
use state::State;

// Whether the bytes are a state's and the number a mode's.
fn legible(state: &[u8], mode: u64) -> bool
    ensures { result ≡ legible state.now mode }
{
    if 1 < mode {
        return false;
    }
    well_laid(state)
}

fn first_of(checks: Option<Check>) -> Triple
    ensures { result ≡ check_triple (checks_of checks) }
{
    match checks {
        None => Triple {
            first: 0,
            second: 0,
            third: 0,
        },
        Some(Check { value, bound }) => Triple {
            first: 1,
            second: value,
            third: bound as u64,
        },
    }
}

// The state after, and how a step went.
fn leave_step(state: &mut [u8], answer: &mut [u8], after: State, went: Went)
    ensures { (state.new ≡ written STATE_BYTES (state_bytes after) state.old) × (answer.new ≡ tripled (went_triple went) answer.old) }
{
    let stop = stop_of(went);
    let t = Triple {
        first: refusal::code_of(stop),
        second: 0,
        third: refusal::particular_at(stop),
    };
    write_state(state, after);
    write_triple(answer, t);
}

#[unsafe(no_mangle)]
pub extern "C" fn oracle_execute(
    state: &mut [u8],
    memory: &mut [u8],
    answer: &mut [u8],
    check: &mut [u8],
    mode: u64,
    opcode: u8,
    a: u8,
    b: u8,
    c: u8,
    imm: u64,
)
    ensures { given_call state.new memory.new answer.new check.new ≡ executing mode (given_of (opcode_in opcode_number opcode) a b c imm) (given_call state.old memory.old answer.old check.old) }
{
    if !legible(state, mode) {
        write_triple(answer, refused(Refusal::Malformed));
        write_triple(check, first_of(None));
        return;
    }
    let i = coding::given(opcode, a, b, c, imm);
    let choices = Choices {
        mode: mode_of(mode),
    };
    let r = given::execute(choices, i, read_state(state), memory);
    let went = r.went;
    let checks = r.checks;
    let after = r.state;
    leave_step(state, answer, after, went);
    write_triple(check, first_of(checks));
}

#[unsafe(no_mangle)]
pub extern "C" fn oracle_step(
    state: &mut [u8],
    memory: &mut [u8],
    answer: &mut [u8],
    values: &mut [u64],
    bounds: &mut [u8],
    pcs: &mut [u64],
    count: usize,
    mode: u64,
) -> usize
    ensures { machine_call state.new memory.new answer.new (lists result values.new bounds.new pcs.new) ≡ stepping mode (machine_call state.old memory.old answer.old (lists count values.old bounds.old pcs.old)) }
{
    if !legible(state, mode) {
        write_triple(answer, refused(Refusal::Malformed));
        return count;
    }
    let choices = Choices {
        mode: mode_of(mode),
    };
    let s = read_state(state);
    let r = step::step(choices, s, memory, values, bounds, pcs, count);
    let went = r.went;
    let after = r.state;
    leave_step(state, answer, after, went);
    r.count
}

fn run_by(
    mode: Mode,
    s: State,
    fuel: u64,
    m: &mut [u8],
    values: &mut [u64],
    bounds: &mut [u8],
    pcs: &mut [u64],
    count: usize,
) -> Ran
    ensures { ran result m.new values.new bounds.new pcs.new ≡ run mode document_rules fuel (world_of s m.old) (lists count values.old bounds.old pcs.old) }
{
    match mode {
        Mode::Plain => run::run_plain(s, fuel, m, values, bounds, pcs, count),
        Mode::Deferred => run::run_deferred(s, fuel, m, values, bounds, pcs, count),
    }
}

// The state after, and how a run stopped.
fn leave_run(state: &mut [u8], answer: &mut [u8], r: Ran)
    ensures { (state.new ≡ written STATE_BYTES (state_bytes r.state) state.old) × (answer.new ≡ written ANSWER_BYTES (stop_bytes r.stop r.steps) answer.old) }
{
    let stop = r.stop;
    let after = r.state;
    write_state(state, after);
    write_answer(
        answer,
        refusal::code_of(stop),
        r.steps,
        refusal::particular_at(stop),
    );
}

#[unsafe(no_mangle)]
pub extern "C" fn oracle_run(
    state: &mut [u8],
    memory: &mut [u8],
    answer: &mut [u8],
    values: &mut [u64],
    bounds: &mut [u8],
    pcs: &mut [u64],
    count: usize,
    fuel: u64,
    mode: u64,
) -> usize
    ensures { machine_call state.new memory.new answer.new (lists result values.new bounds.new pcs.new) ≡ running mode fuel (machine_call state.old memory.old answer.old (lists count values.old bounds.old pcs.old)) }
{
    if !legible(state, mode) {
        write_answer(answer, 9, 0, 0);
        return count;
    }
    let s = read_state(state);
    let r = run_by(mode_of(mode), s, fuel, memory, values, bounds, pcs, count);
    leave_run(state, answer, r);
    r.count
}
