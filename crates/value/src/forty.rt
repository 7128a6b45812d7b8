// 40-bit values: each operand is cut to its low 40 bits.
ghost use Rattle.std.specs.Prelude.{◌≡◌};
ghost use Rattle.value.specs.Forty.{add40, sub40, mul40, and40, or40, xor40, shl40, shr40, sra40, slt40, ult40};

// 2^40.
const TOP: u64 = 0x100_0000_0000;

// 2^39, the sign bit of a 40-bit value.
const HALF: u64 = 0x80_0000_0000;

pub fn add(a: u64, b: u64) -> u64
    ensures { result ≡ add40 a b }
{
    (a % TOP + b % TOP) % TOP
}

pub fn sub(a: u64, b: u64) -> u64
    ensures { result ≡ sub40 a b }
{
    (a % TOP + (TOP - b % TOP)) % TOP
}

// Nothing overflows: 40 bits of a by 24 of b fit 64, and of a by the 16 bits of b above them only 16 bits count below 2^40.
// The compiler makes one multiplication and a mask of it.
pub fn mul(a: u64, b: u64) -> u64
    ensures { result ≡ mul40 a b }
{
    let low = a % TOP * (b % 0x100_0000);
    let high = a % 0x100_0000 * (b / 0x100_0000 % 0x1_0000) % 0x1_0000;
    (low + high * 0x100_0000) % TOP
}

pub fn and(a: u64, b: u64) -> u64
    ensures { result ≡ and40 a b }
{
    (a % TOP) & (b % TOP)
}

pub fn or(a: u64, b: u64) -> u64
    ensures { result ≡ or40 a b }
{
    (a % TOP) | (b % TOP)
}

pub fn xor(a: u64, b: u64) -> u64
    ensures { result ≡ xor40 a b }
{
    (a % TOP) ^ (b % TOP)
}

// Shifts by any amount. That a register's amount is its low six bits is the caller's to see to.
pub fn shl(a: u64, k: u64) -> u64
    ensures { result ≡ shl40 a k }
{
    if k < 40 { ((a % TOP) << k) % TOP } else { 0 }
}

pub fn shr(a: u64, k: u64) -> u64
    ensures { result ≡ shr40 a k }
{
    if k < 40 { (a % TOP) >> k } else { 0 }
}

// A negative value is shifted as its complement, so that the bits that come in are ones.
pub fn sra(a: u64, k: u64) -> u64
    ensures { result ≡ sra40 a k }
{
    let v = a % TOP;
    if v < HALF {
        shr(a, k)
    } else {
        TOP - 1 - shr(TOP - 1 - v, k)
    }
}

// The signed order is the plain one after adding half of the range.
pub fn slt(a: u64, b: u64) -> bool
    ensures { result ≡ slt40 a b }
{
    (a % TOP + HALF) % TOP < (b % TOP + HALF) % TOP
}

pub fn ult(a: u64, b: u64) -> bool
    ensures { result ≡ ult40 a b }
{
    a % TOP < b % TOP
}
