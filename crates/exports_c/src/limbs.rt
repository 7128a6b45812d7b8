// Limb operations, over the bytes of a state: `normalize`. Bytes that are no state's are refused (9).
ghost use Rattle.std.specs.Prelude.{◌≡◌};
ghost use Rattle.normalize.specs.Normalizing.{would_overflow};
ghost use Rattle.exports.specs.Limbs.{limb_call, normalizing};

#[unsafe(no_mangle)]
pub extern "C" fn oracle_normalize(
    state: &mut [u8],
    before: &mut [u8],
    after: &mut [u8],
    carries: &mut [u8],
    which: u64,
    reg: u8,
    low: u64,
    high: u64,
)
    ensures { limb_call state.new before.new after.new carries.new ≡ normalizing which reg low high (limb_call state.old before.old after.old carries.old) }
{
    exports::limbs::oracle_normalize(state, before, after, carries, which, reg, low, high);
}

#[unsafe(no_mangle)]
pub extern "C" fn oracle_would_overflow(low: u64, high: u64) -> bool
    ensures { result ≡ would_overflow low high }
{
    exports::limbs::oracle_would_overflow(low, high)
}
