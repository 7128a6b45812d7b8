// Notes of bits: `bound`.
ghost use Rattle.std.specs.Prelude.{◌≡◌};
ghost use Rattle.bound.specs.Bits.{bits_of, after_add, after_larger, after_mul, after_div, after_and, after_shl, after_srl, after_sra, after_cmp, after_load, needs_check};

#[unsafe(no_mangle)]
pub extern "C" fn oracle_bound_from_constant(x: u64) -> u8
    ensures { result ≡ bits_of x }
{
    singles::bounds::oracle_bound_from_constant(x)
}

#[unsafe(no_mangle)]
pub extern "C" fn oracle_bound_after_add(a: u8, b: u8) -> u8
    ensures { result ≡ after_add a b }
{
    singles::bounds::oracle_bound_after_add(a, b)
}

#[unsafe(no_mangle)]
pub extern "C" fn oracle_bound_after_sub(a: u8, b: u8) -> u8
    ensures { result ≡ after_larger a b }
{
    singles::bounds::oracle_bound_after_sub(a, b)
}

#[unsafe(no_mangle)]
pub extern "C" fn oracle_bound_after_mul(a: u8, b: u8) -> u8
    ensures { result ≡ after_mul a b }
{
    singles::bounds::oracle_bound_after_mul(a, b)
}

#[unsafe(no_mangle)]
pub extern "C" fn oracle_bound_after_and(a: u8, b: u8) -> u8
    ensures { result ≡ after_and a b }
{
    singles::bounds::oracle_bound_after_and(a, b)
}

#[unsafe(no_mangle)]
pub extern "C" fn oracle_bound_after_move(source: u8, destination: u8) -> u8
    ensures { result ≡ after_larger source destination }
{
    singles::bounds::oracle_bound_after_move(source, destination)
}

#[unsafe(no_mangle)]
pub extern "C" fn oracle_bound_after_div(a: u8) -> u8
    ensures { result ≡ after_div a }
{
    singles::bounds::oracle_bound_after_div(a)
}

#[unsafe(no_mangle)]
pub extern "C" fn oracle_bound_after_shl(b: u8, k: u64) -> u8
    ensures { result ≡ after_shl b k }
{
    singles::bounds::oracle_bound_after_shl(b, k)
}

#[unsafe(no_mangle)]
pub extern "C" fn oracle_bound_after_srl(b: u8, k: u64) -> u8
    ensures { result ≡ after_srl b k }
{
    singles::bounds::oracle_bound_after_srl(b, k)
}

#[unsafe(no_mangle)]
pub extern "C" fn oracle_bound_after_sra(b: u8, k: u64) -> u8
    ensures { result ≡ after_sra b k }
{
    singles::bounds::oracle_bound_after_sra(b, k)
}

#[unsafe(no_mangle)]
pub extern "C" fn oracle_bound_after_cmp() -> u8
    ensures { result ≡ after_cmp }
{
    singles::bounds::oracle_bound_after_cmp()
}

#[unsafe(no_mangle)]
pub extern "C" fn oracle_bound_after_load(size: u64) -> u8
    ensures { result ≡ after_load size }
{
    singles::bounds::oracle_bound_after_load(size)
}

#[unsafe(no_mangle)]
pub extern "C" fn oracle_bound_needs_check(b: u8) -> bool
    ensures { result ≡ needs_check b }
{
    singles::bounds::oracle_bound_needs_check(b)
}
