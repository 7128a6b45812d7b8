// Division of all 64 bits. The caller refuses a divisor of 0 first; here it answers as the definitions do. Signed and
// unsigned division are other operators, so the pairs stay pairs.
ghost use Rattle.std.specs.Prelude.{◌≡◌, ◌-◌, ◌^◌, true, false, ◌≢◌};
ghost use Rattle.value.specs.Division.{div_of, rem_of, divu_of, remu_of};

// The one pair whose quotient no i64 holds: -2^63 by -1.
fn overflows(a: u64, b: u64) -> bool
    ensures { (result ≡ true → (a ≡ 2 ^ 63) × (b ≡ 2 ^ 64 - 1)) × (result ≡ false → a ≡ 2 ^ 63 → b ≢ 2 ^ 64 - 1) }
{
    a == 0x8000_0000_0000_0000 && b == 0xFFFF_FFFF_FFFF_FFFF
}

pub fn div(a: u64, b: u64) -> u64
    ensures { result ≡ div_of a b }
{
    if b == 0 {
        return 0;
    }
    if overflows(a, b) {
        return a;
    }
    let quotient = a.cast_signed() / b.cast_signed();
    quotient.cast_unsigned()
}

pub fn rem(a: u64, b: u64) -> u64
    ensures { result ≡ rem_of a b }
{
    if b == 0 {
        return a;
    }
    if overflows(a, b) {
        return 0;
    }
    let remainder = a.cast_signed() % b.cast_signed();
    remainder.cast_unsigned()
}

pub fn divu(a: u64, b: u64) -> u64
    ensures { result ≡ divu_of a b }
{
    if b == 0 {
        return 0;
    }
    a / b
}

pub fn remu(a: u64, b: u64) -> u64
    ensures { result ≡ remu_of a b }
{
    if b == 0 {
        return a;
    }
    a % b
}
