// What C calls of the crate `host`, as a static library: each function passes on the one of the same name there, and promises what
// that promises.
#![tactic(auto)]

ghost use Rattle.std.specs.Prelude.{◌≡◌};
ghost use Rattle.host.specs.Call.{called, call_of};

// The host's call: mode 0 is plain, 1 deferred. It answers the stop's code, and 9 with nothing run where an argument is malformed.
#[unsafe(no_mangle)]
pub extern "C" fn zkir_run(
    state: &mut [u8],
    memory: &mut [u8],
    answer: &mut [u8],
    fuel: u64,
    mode: u64,
) -> u64
    ensures { called result state.new memory.new answer.new ≡ call_of state.old memory.old answer.old fuel mode }
{
    host::zkir_run(state, memory, answer, fuel, mode)
}
