// What instructions compute of 64-bit values: `value`.
ghost use Rattle.std.specs.Prelude.{◌≡◌, ◌+◌, ◌%◌, ◌^◌};
ghost use Rattle.encoding.specs.Fields.{extended};
ghost use Rattle.value.specs.Forty.{add40, sub40, mul40, and40, or40, xor40, shl40, shr40, sra40, slt40, ult40};
ghost use Rattle.value.specs.Product.{mulh_of};
ghost use Rattle.value.specs.Division.{div_of, rem_of, divu_of, remu_of};

#[unsafe(no_mangle)]
pub extern "C" fn oracle_value_add(a: u64, b: u64) -> u64
    ensures { result ≡ add40 a b }
{
    singles::values::oracle_value_add(a, b)
}

#[unsafe(no_mangle)]
pub extern "C" fn oracle_value_sub(a: u64, b: u64) -> u64
    ensures { result ≡ sub40 a b }
{
    singles::values::oracle_value_sub(a, b)
}

#[unsafe(no_mangle)]
pub extern "C" fn oracle_value_mul(a: u64, b: u64) -> u64
    ensures { result ≡ mul40 a b }
{
    singles::values::oracle_value_mul(a, b)
}

#[unsafe(no_mangle)]
pub extern "C" fn oracle_value_and(a: u64, b: u64) -> u64
    ensures { result ≡ and40 a b }
{
    singles::values::oracle_value_and(a, b)
}

#[unsafe(no_mangle)]
pub extern "C" fn oracle_value_or(a: u64, b: u64) -> u64
    ensures { result ≡ or40 a b }
{
    singles::values::oracle_value_or(a, b)
}

#[unsafe(no_mangle)]
pub extern "C" fn oracle_value_xor(a: u64, b: u64) -> u64
    ensures { result ≡ xor40 a b }
{
    singles::values::oracle_value_xor(a, b)
}

#[unsafe(no_mangle)]
pub extern "C" fn oracle_value_shl(a: u64, k: u64) -> u64
    ensures { result ≡ shl40 a k }
{
    singles::values::oracle_value_shl(a, k)
}

#[unsafe(no_mangle)]
pub extern "C" fn oracle_value_shr(a: u64, k: u64) -> u64
    ensures { result ≡ shr40 a k }
{
    singles::values::oracle_value_shr(a, k)
}

#[unsafe(no_mangle)]
pub extern "C" fn oracle_value_sra(a: u64, k: u64) -> u64
    ensures { result ≡ sra40 a k }
{
    singles::values::oracle_value_sra(a, k)
}

#[unsafe(no_mangle)]
pub extern "C" fn oracle_value_slt(a: u64, b: u64) -> bool
    ensures { result ≡ slt40 a b }
{
    singles::values::oracle_value_slt(a, b)
}

#[unsafe(no_mangle)]
pub extern "C" fn oracle_value_ult(a: u64, b: u64) -> bool
    ensures { result ≡ ult40 a b }
{
    singles::values::oracle_value_ult(a, b)
}

#[unsafe(no_mangle)]
pub extern "C" fn oracle_value_mulh(a: u64, b: u64) -> u64
    ensures { result ≡ mulh_of a b }
{
    singles::values::oracle_value_mulh(a, b)
}

#[unsafe(no_mangle)]
pub extern "C" fn oracle_value_div(a: u64, b: u64) -> u64
    ensures { result ≡ div_of a b }
{
    singles::values::oracle_value_div(a, b)
}

#[unsafe(no_mangle)]
pub extern "C" fn oracle_value_rem(a: u64, b: u64) -> u64
    ensures { result ≡ rem_of a b }
{
    singles::values::oracle_value_rem(a, b)
}

#[unsafe(no_mangle)]
pub extern "C" fn oracle_value_divu(a: u64, b: u64) -> u64
    ensures { result ≡ divu_of a b }
{
    singles::values::oracle_value_divu(a, b)
}

#[unsafe(no_mangle)]
pub extern "C" fn oracle_value_remu(a: u64, b: u64) -> u64
    ensures { result ≡ remu_of a b }
{
    singles::values::oracle_value_remu(a, b)
}

#[unsafe(no_mangle)]
pub extern "C" fn oracle_value_extend_8(x: u8) -> u64
    ensures { result ≡ extended 7 x }
{
    singles::values::oracle_value_extend_8(x)
}

#[unsafe(no_mangle)]
pub extern "C" fn oracle_value_extend_16(x: u16) -> u64
    ensures { result ≡ extended 15 x }
{
    singles::values::oracle_value_extend_16(x)
}

#[unsafe(no_mangle)]
pub extern "C" fn oracle_value_extend_17(x: u32) -> u64
    ensures { result ≡ extended 16 (x % 2 ^ 17) }
{
    singles::values::oracle_value_extend_17(x)
}

#[unsafe(no_mangle)]
pub extern "C" fn oracle_value_extend_21(x: u32) -> u64
    ensures { result ≡ extended 20 (x % 2 ^ 21) }
{
    singles::values::oracle_value_extend_21(x)
}

#[unsafe(no_mangle)]
pub extern "C" fn oracle_value_plus(x: u64, y: u64) -> u64
    ensures { result ≡ (x + y) % 2 ^ 64 }
{
    singles::values::oracle_value_plus(x, y)
}
