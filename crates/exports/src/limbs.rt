// Limb operations, over the bytes of a state: `normalize`. Bytes that are no state's are refused (9).
ghost use Rattle.std.specs.Prelude.{◌≡◌};
ghost use Rattle.normalize.specs.Normalizing.{would_overflow};
ghost use Rattle.exports.specs.Triples.{tripled};
ghost use Rattle.exports.specs.Limbs.{normalized_by, limb_call, normalizing_code, result_in, before_triple, after_triple, carry_triple, normalizing};

use crate::triple::{Triple, write_triple};
use layout::laid::well_laid;
use layout::reading::read_state;
use layout::writing::write_state;
use memory::bytes::bit;
use normalize::{NormalizationResult, Normalized};
use refusal::{Refusal, number_of};
use state::State;

fn code_of(n: Result<Option<NormalizationResult>, Refusal>) -> u64
    ensures { result ≡ normalizing_code n }
{
    match n {
        Ok(Some(_)) => 0,
        Ok(None) => 64,
        Err(r) => number_of(r),
    }
}

// Zeros where nothing was normalised.
fn result_in(n: Result<Option<NormalizationResult>, Refusal>) -> NormalizationResult
    ensures { result ≡ result_in n }
{
    match n {
        Ok(Some(r)) => r,
        _ => NormalizationResult {
            accumulated: [0, 0],
            normalized: [0, 0],
            carries: [0, 0],
        },
    }
}

fn before_of(code: u64, r: NormalizationResult) -> Triple
    ensures { result ≡ before_triple code r }
{
    let limbs = r.accumulated;
    Triple {
        first: code,
        second: limbs[0],
        third: limbs[1],
    }
}

fn after_of(r: NormalizationResult) -> Triple
    ensures { result ≡ after_triple r }
{
    let limbs = r.normalized;
    Triple {
        first: limbs[0] as u64,
        second: limbs[1] as u64,
        third: bit(normalize::has_carries(r)) as u64,
    }
}

fn carries_of(r: NormalizationResult) -> Triple
    ensures { result ≡ carry_triple r }
{
    let carries = r.carries;
    Triple {
        first: carries[0] as u64,
        second: carries[1] as u64,
        third: normalize::total_carry(r),
    }
}

fn give(
    before: &mut [u8],
    after: &mut [u8],
    carries: &mut [u8],
    answer: Result<Option<NormalizationResult>, Refusal>,
)
    ensures { (before.new ≡ tripled (before_triple (normalizing_code answer) (result_in answer)) before.old) × (after.new ≡ tripled (after_triple (result_in answer)) after.old) × (carries.new ≡ tripled (carry_triple (result_in answer)) carries.old) }
{
    let r = result_in(answer);
    write_triple(before, before_of(code_of(answer), r));
    write_triple(after, after_of(r));
    write_triple(carries, carries_of(r));
}

fn normalized_by(which: u64, s: State, reg: u8, low: u64, high: u64) -> Normalized
    ensures { result ≡ normalized_by which s reg low high }
{
    if which == 0 {
        return normalize::normalize_register(s, reg);
    }
    if which == 1 {
        return normalize::normalize_if_near_overflow(s, reg);
    }
    normalize::normalize_and_write(s, reg, low, high)
}

#[unsafe(no_mangle)]
pub extern "C" fn oracle_normalize(
    state: &mut [u8],
    before: &mut [u8],
    after: &mut [u8],
    carries: &mut [u8],
    which: u64,
    reg: u8,
    low: u64,
    high: u64,
)
    ensures { limb_call state.new before.new after.new carries.new ≡ normalizing which reg low high (limb_call state.old before.old after.old carries.old) }
{
    if !well_laid(state) {
        give(before, after, carries, Err(Refusal::Malformed));
        return;
    }
    let n = normalized_by(which, read_state(state), reg, low, high);
    let answer = n.answer;
    let s = n.state;
    write_state(state, s);
    give(before, after, carries, answer);
}

#[unsafe(no_mangle)]
pub extern "C" fn oracle_would_overflow(low: u64, high: u64) -> bool
    ensures { result ≡ would_overflow low high }
{
    normalize::would_overflow(low, high)
}
