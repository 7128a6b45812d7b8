// What the host lends, and its call of the run.
#![tactic(auto)]

ghost use Rattle.std.specs.Prelude.{◌≡◌, ◌&&◌, eqb, leb};
ghost use Rattle.pending.specs.Pending.{no_lists};
ghost use Rattle.execute.specs.World.{world_of};
ghost use Rattle.execute.specs.Execute.{admits};
ghost use Rattle.refusal.specs.Stops.{code_of, particular_at};
ghost use Rattle.layout.specs.Layout.{STATE_BYTES, state_bytes, written};
ghost use Rattle.layout.specs.Answer.{ANSWER_BYTES, answer_bytes};
ghost use Rattle.run.specs.Run.{answer};
ghost use Rattle.host.specs.Call.{mode_of, called, call_of};
ghost use Rattle.host.specs.Unlisted.{unlisted_run};

use execute::{Choices, Mode};
use layout::STATE_BYTES;
use layout::answer::{ANSWER_BYTES, write_answer};
use layout::reading::{Reading, read};
use layout::writing::write_state;
use pending::Room;
use refusal::Stop;
use run::Ran;
use run::legs::stop_of;
use state::State;
use step::leg;

// "0 plain or 1 deferred": whoever calls it has refused any other.
pub fn mode_of(n: u64) -> Mode
    ensures { result ≡ mode_of n }
{
    if n == 0 {
        return Mode::Plain;
    }
    Mode::Deferred
}

fn call_taken(r: Reading, answer: usize, mode: u64) -> bool
    ensures { result ≡ (eqb answer ANSWER_BYTES && leb mode 1 && r.laid && admits (mode_of mode) r.state.registers) }
{
    if answer != ANSWER_BYTES {
        return false;
    }
    if 1 < mode {
        return false;
    }
    if !r.laid {
        return false;
    }
    execute::admits(mode_of(mode), &r.state.registers)
}

// The run of a state that its mode takes, with no list lent: one leg.
fn run_taken(choices: Choices, s: State, fuel: u64, m: &mut [u8]) -> Ran
    ensures { answer result.stop result.steps (world_of result.state m.new) no_lists ≡ unlisted_run choices fuel (world_of s m.old) }
{
    if s.halted {
        return Ran {
            stop: Stop::Ebreak,
            steps: 0,
            count: 0,
            state: s,
        };
    }
    let g = leg::advance(choices, Room::Unlent, s, fuel, m);
    let went = g.went;
    let state = g.state;
    Ran {
        stop: stop_of(went),
        steps: g.steps,
        count: 0,
        state,
    }
}

// Writes what a run leaves, and answers its code.
fn leave(state: &mut [u8], answer: &mut [u8], r: Ran) -> u64
    ensures { (result ≡ code_of r.stop) × (state.new ≡ written STATE_BYTES (state_bytes r.state) state.old) × (answer.new ≡ written ANSWER_BYTES (answer_bytes (code_of r.stop) r.steps (particular_at r.stop)) answer.old) }
{
    let stop = r.stop;
    let after = r.state;
    let code = refusal::code_of(stop);
    write_state(state, after);
    write_answer(answer, code, r.steps, refusal::particular_at(stop));
    code
}

fn malformed(answer: &mut [u8]) -> u64
    ensures { (result ≡ 9) × (answer.new ≡ written ANSWER_BYTES (answer_bytes 9 0 0) answer.old) }
{
    write_answer(answer, 9, 0, 0);
    9
}

// The host's call: mode 0 is plain, 1 deferred. It answers the stop's code, and 9 with nothing run where an argument is malformed.
#[unsafe(no_mangle)]
pub extern "C" fn zkir_run(
    state: &mut [u8],
    memory: &mut [u8],
    answer: &mut [u8],
    fuel: u64,
    mode: u64,
) -> u64
    ensures { called result state.new memory.new answer.new ≡ call_of state.old memory.old answer.old fuel mode }
{
    // tested here too, so that the compiler knows it where the bytes are read
    if state.len() != STATE_BYTES {
        return malformed(answer);
    }
    let r = read(state);
    if !call_taken(r, answer.len(), mode) {
        return malformed(answer);
    }
    let choices = Choices {
        mode: mode_of(mode),
    };
    let s = r.state;
    let left = run_taken(choices, s, fuel, memory);
    leave(state, answer, left)
}
