// Values that fit a signed 64-bit number.
ghost use Rattle.std.specs.Prelude.{◌≡◌, ◌*◌};
ghost use Rattle.sums.specs.Sums.{checked, signed, join, dif};
ghost use Rattle.sums.specs.Code.{value_read, sign_of, op_of};

#[derive(Clone, Copy)]
pub(crate) enum Op {
    Add,
    Sub,
}

pub(crate) fn of_digits(negative: bool, v: u64) -> Option<i64>
    ensures { checked (signed (sign_of negative) v) ≡ value_read result }
{
    if negative {
        0_i64.checked_sub_unsigned(v)
    } else {
        0_i64.checked_add_unsigned(v)
    }
}

// What a label means: 4 bytes for each instruction from `base` to it.
pub(crate) fn distance(index: u64, base: u64) -> Option<i64>
    ensures { checked (dif (4 * index) (4 * base)) ≡ value_read result }
{
    index.checked_signed_diff(base)?.checked_mul(4)
}

#[tactic(auto, using(crate::proofs::Differences::fitting))]
pub(crate) fn joined(op: Op, v: i64, w: i64) -> Option<i64>
    ensures { checked (join (op_of op) v w) ≡ value_read result }
{
    match op {
        Op::Add => v.checked_add(w),
        Op::Sub => v.checked_sub(w),
    }
}
