// The kind of a word, by document 01's ranges of opcode numbers.
ghost use Rattle.std.specs.Prelude.{◌≡◌};
ghost use Rattle.encoding.specs.Fields.{field, within};
ghost use Rattle.encoding.specs.Kinds.{is_s, is_b, is_j, is_i, is_r};

use super::fields::extract_opcode;

fn in_range(lo: u32, hi: u32, n: u32) -> bool
    ensures { result ≡ within lo hi n }
{
    (lo <= n) & (n <= hi)
}

pub fn is_stype(inst: u32) -> bool
    ensures { result ≡ is_s (field 0 7 inst) }
{
    in_range(37, 40, extract_opcode(inst))
}

pub fn is_btype(inst: u32) -> bool
    ensures { result ≡ is_b (field 0 7 inst) }
{
    in_range(41, 46, extract_opcode(inst))
}

pub fn is_jtype(inst: u32) -> bool
    ensures { result ≡ is_j (field 0 7 inst) }
{
    extract_opcode(inst) == 47
}

pub fn is_itype(inst: u32) -> bool
    ensures { result ≡ is_i (field 0 7 inst) }
{
    let n = extract_opcode(inst);
    (n == 9) | in_range(13, 15, n) | in_range(19, 21, n) | in_range(31, 36, n) | (n == 48)
}

pub fn is_rtype(inst: u32) -> bool
    ensures { result ≡ is_r (field 0 7 inst) }
{
    in_range(1, 50, extract_opcode(inst))
        & !(is_stype(inst) | is_btype(inst) | is_jtype(inst) | is_itype(inst))
}
