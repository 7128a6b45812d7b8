// The sums and differences of limbs, in numbers alone.
ghost use Rattle.std.specs.Prelude.{◌≡◌, true, false, cond, ◌&&◌, ◌+◌, ◌-◌, ◌*◌, ◌/◌, ◌%◌, ◌^◌, ltb};
ghost use Rattle.bound.specs.Bits.{bits_of, after_add, after_larger};
ghost use Rattle.state.specs.Held.{Whole, Limbs, value_of};
ghost use Rattle.state.specs.Registers.{put, normalise};
ghost use Rattle.deferred.specs.Limbs.{sum_into, covers, limbed};
ghost use Rattle.deferred.specs.Plan.{operand, limbs_of, Small, Plans};

// The limbs of a register or of an immediate, and its bound.
#[derive(Clone, Copy)]
pub(crate) struct Operand {
    pub low: u64,
    pub high: u64,
    pub bound: u8,
}

// Whether the instruction is done on limbs; whether its sources are normalised for it, the second of which is R0 where there is none;
// what it keeps, and its bound.
#[derive(Clone, Copy)]
pub(crate) struct Plan {
    pub waits: bool,
    pub forced: bool,
    pub rs2: u8,
    pub kept: u64,
    pub bound: u8,
}

pub(crate) fn unplanned() -> Plan
    ensures { result ≡ record { waits = false; forced = false; rs2 = 0; kept = 0; bound = 0 } }
{
    Plan {
        waits: false,
        forced: false,
        rs2: 0,
        kept: 0,
        bound: 0,
    }
}

pub(crate) fn constant(imm: u64) -> Operand
    ensures { (result ≡ operand (Whole imm) (bits_of imm)) × Small result }
{
    Operand {
        low: imm % 0x10_0000,
        high: imm / 0x10_0000 % 0x10_0000,
        bound: bound::from_constant(imm),
    }
}

fn fit(low: u64, high: u64) -> bool
    ensures { result ≡ (ltb low (2 ^ 30) && ltb high (2 ^ 30)) }
{
    if low < 0x4000_0000 {
        return high < 0x4000_0000;
    }
    false
}

fn value(x: Operand) -> u64
    requires { Small x }
    ensures { result ≡ value_of (limbs_of x) }
{
    (x.low + 0x10_0000 * x.high) % 0x100_0000_0000
}

// The limbs of two whole values, added and kept.
fn sum_of_whole(a: u64, b: u64) -> u64
    ensures { result ≡ a % 2 ^ 20 + b % 2 ^ 20 + 2 ^ 30 * (a / 2 ^ 20 % 2 ^ 20 + b / 2 ^ 20 % 2 ^ 20) }
{
    a % 0x10_0000
        + b % 0x10_0000
        + 0x4000_0000 * (a / 0x10_0000 % 0x10_0000 + b / 0x10_0000 % 0x10_0000)
}

pub(crate) fn sum(x: Operand, y: Operand, rs2: u8) -> Plan
    requires { Small x × Small y }
    ensures { Plans result (λ rd rs1 R. limbed true (sum_into rd (limbs_of x) (limbs_of y) (after_add x.bound y.bound) R (normalise rs2 (normalise rs1 R)))) }
{
    let bound = bound::after_add(x.bound, y.bound);
    let low = x.low + y.low;
    let high = x.high + y.high;
    if fit(low, high) {
        return Plan {
            waits: true,
            forced: false,
            rs2,
            kept: low + 0x4000_0000 * high,
            bound,
        };
    }
    Plan {
        waits: true,
        forced: true,
        rs2,
        kept: sum_of_whole(value(x), value(y)),
        bound,
    }
}

fn covered(x: Operand, y: Operand) -> bool
    ensures { result ≡ covers (limbs_of x) (limbs_of y) }
{
    if y.low <= x.low {
        return y.high <= x.high;
    }
    false
}

// By limbs only if neither limb borrows.
pub(crate) fn difference(x: Operand, y: Operand) -> Plan
    requires { Small x }
    ensures { Plans result (λ rd rs1 R. cond (covers (limbs_of x) (limbs_of y)) (limbed true (put R rd (Limbs (x.low - y.low) (x.high - y.high)) (after_larger x.bound y.bound))) (limbed false R)) }
{
    if !covered(x, y) {
        return unplanned();
    }
    Plan {
        waits: true,
        forced: false,
        rs2: 0,
        kept: x.low - y.low + 0x4000_0000 * (x.high - y.high),
        bound: bound::after_larger(x.bound, y.bound),
    }
}
