// Notes of how many bits a value has, as `ValueBound`: what each kind of result notes.
#![tactic(auto)]

ghost use Rattle.std.specs.Prelude.{◌≡◌};
ghost use Rattle.bound.specs.Bits.{bits_of, after_add, after_larger, after_mul, after_div, after_and, after_shl, after_srl, after_sra, after_cmp, after_load, needs_check};

// The bits that a constant needs, for immediates and return addresses: the width less its leading zeros.
pub fn from_constant(x: u64) -> u8
    ensures { result ≡ bits_of x }
{
    (64 - u64::leading_zeros(x)) as u8
}

pub fn after_add(a: u8, b: u8) -> u8
    ensures { result ≡ after_add a b }
{
    a.max(b).saturating_add(1).min(64)
}

// Sub, Or and Xor; and of a move that happens, the source's and the destination's.
pub fn after_larger(a: u8, b: u8) -> u8
    ensures { result ≡ after_larger a b }
{
    a.max(b).min(64)
}

// Mul and Mulh.
pub fn after_mul(a: u8, b: u8) -> u8
    ensures { result ≡ after_mul a b }
{
    a.saturating_add(b).min(64)
}

// Div, Divu, Rem and Remu, of the dividend's bits.
pub fn after_div(a: u8) -> u8
    ensures { result ≡ after_div a }
{
    a.min(64)
}

pub fn after_and(a: u8, b: u8) -> u8
    ensures { result ≡ after_and a b }
{
    a.min(b).min(64)
}

pub fn after_shl(b: u8, k: u64) -> u8
    ensures { result ≡ after_shl b k }
{
    (b as u64).saturating_add(k).min(40) as u8
}

pub fn after_srl(b: u8, k: u64) -> u8
    ensures { result ≡ after_srl b k }
{
    (b as u64).saturating_sub(k).min(64) as u8
}

pub fn after_sra(b: u8, k: u64) -> u8
    ensures { result ≡ after_sra b k }
{
    if 40 <= b {
        return 40;
    }
    after_srl(b, k)
}

pub fn after_cmp() -> u8
    ensures { result ≡ after_cmp }
{
    1
}

pub fn after_load(size: u64) -> u8
    ensures { result ≡ after_load size }
{
    size.saturating_mul(8).min(40) as u8
}

pub fn needs_check(b: u8) -> bool
    ensures { result ≡ needs_check b }
{
    40 < b
}
