// What C calls of the crate `lent`, as a static library: each function passes on the one of the same name there, and promises what
// that promises.
#![tactic(auto)]

ghost use Rattle.std.specs.Prelude.{◌≡◌};
ghost use Rattle.checks.specs.Records.{listed};
ghost use Rattle.lent.specs.Lent.{lent_step, step_lent};

use checks::Pending;
use lent::exported::{Lent, StepAnswer};

// Mode 0 is plain, 1 deferred. Code 9 where an argument is malformed; then nothing has changed.
#[unsafe(no_mangle)]
pub extern "C" fn zkir_step(
    state: &mut Lent,
    memory: &mut [u8],
    list: &mut [Pending],
    count: usize,
    mode: u64,
) -> StepAnswer
    ensures { lent_step result state.new memory.new (listed result.count list.new) ≡ step_lent mode state.old memory.old (listed count list.old) }
{
    lent::exported::zkir_step(state, memory, list, count, mode)
}
