// What C calls of the crate `machines`, as a static library: each function passes on the one of the same name there, and promises what
// that promises.
#![tactic(auto)]

ghost use Rattle.std.specs.Prelude.{◌≡◌};
ghost use Rattle.opcode.specs.Opcodes.{opcode_number, opcode_in};
ghost use Rattle.pending.specs.Pending.{lists};
ghost use Rattle.exports.specs.Coding.{given_of};
ghost use Rattle.machines.specs.Machine.{given_call, executing, machine_call, stepping, running};

#[unsafe(no_mangle)]
pub extern "C" fn oracle_execute(
    state: &mut [u8],
    memory: &mut [u8],
    answer: &mut [u8],
    check: &mut [u8],
    mode: u64,
    opcode: u8,
    a: u8,
    b: u8,
    c: u8,
    imm: u64,
)
    ensures { given_call state.new memory.new answer.new check.new ≡ executing mode (given_of (opcode_in opcode_number opcode) a b c imm) (given_call state.old memory.old answer.old check.old) }
{
    machines::oracle_execute(state, memory, answer, check, mode, opcode, a, b, c, imm);
}

#[unsafe(no_mangle)]
pub extern "C" fn oracle_step(
    state: &mut [u8],
    memory: &mut [u8],
    answer: &mut [u8],
    values: &mut [u64],
    bounds: &mut [u8],
    pcs: &mut [u64],
    count: usize,
    mode: u64,
) -> usize
    ensures { machine_call state.new memory.new answer.new (lists result values.new bounds.new pcs.new) ≡ stepping mode (machine_call state.old memory.old answer.old (lists count values.old bounds.old pcs.old)) }
{
    machines::oracle_step(state, memory, answer, values, bounds, pcs, count, mode)
}

#[unsafe(no_mangle)]
pub extern "C" fn oracle_run(
    state: &mut [u8],
    memory: &mut [u8],
    answer: &mut [u8],
    values: &mut [u64],
    bounds: &mut [u8],
    pcs: &mut [u64],
    count: usize,
    fuel: u64,
    mode: u64,
) -> usize
    ensures { machine_call state.new memory.new answer.new (lists result values.new bounds.new pcs.new) ≡ running mode fuel (machine_call state.old memory.old answer.old (lists count values.old bounds.old pcs.old)) }
{
    machines::oracle_run(
        state, memory, answer, values, bounds, pcs, count, fuel, mode,
    )
}
