// The fields of a word. `% (MASK + 1)` is the Rust's `& MASK`.
ghost use Rattle.std.specs.Prelude.{◌≡◌};
ghost use Rattle.encoding.specs.Fields.{field, signed_of};

pub const OPCODE_SHIFT: u32 = 0;

pub const RD_SHIFT: u32 = 7;

pub const RS1_SHIFT: u32 = 11;

pub const RS2_SHIFT: u32 = 15;

pub const IMM_SHIFT: u32 = 15;

pub const FUNCT_SHIFT: u32 = 19;

pub const OFFSET_SHIFT: u32 = 11;

pub const OPCODE_MASK: u32 = 0x7F;

pub const REGISTER_MASK: u32 = 0xF;

pub const IMM_MASK: u32 = 0x1FFFF;

pub const FUNCT_MASK: u32 = 0x1FFF;

pub const OFFSET_MASK: u32 = 0x1FFFFF;

pub const IMM_SIGN_BIT: u32 = 16;

pub const IMM_SIGN_EXTEND: u32 = 1 << 17;

const OFFSET_SIGN_BIT: u32 = 20;

const OFFSET_SIGN_EXTEND: u32 = 1 << 21;

pub fn extract_opcode(inst: u32) -> u32
    ensures { result ≡ field 0 7 inst }
{
    inst % (OPCODE_MASK + 1)
}

pub fn extract_rd(inst: u32) -> u32
    ensures { result ≡ field 7 4 inst }
{
    (inst >> RD_SHIFT) % (REGISTER_MASK + 1)
}

pub fn extract_rs1(inst: u32) -> u32
    ensures { result ≡ field 11 4 inst }
{
    (inst >> RS1_SHIFT) % (REGISTER_MASK + 1)
}

pub fn extract_rs2(inst: u32) -> u32
    ensures { result ≡ field 15 4 inst }
{
    (inst >> RS2_SHIFT) % (REGISTER_MASK + 1)
}

pub fn extract_imm(inst: u32) -> u32
    ensures { result ≡ field 15 17 inst }
{
    (inst >> IMM_SHIFT) % (IMM_MASK + 1)
}

pub fn extract_funct(inst: u32) -> u32
    ensures { result ≡ field 19 13 inst }
{
    (inst >> FUNCT_SHIFT) % (FUNCT_MASK + 1)
}

pub fn extract_offset(inst: u32) -> u32
    ensures { result ≡ field 11 21 inst }
{
    (inst >> OFFSET_SHIFT) % (OFFSET_MASK + 1)
}

#[tactic(auto, using(crate::proofs::Signs::low_read, crate::proofs::Signs::high_imm))]
pub fn extract_imm_signed(inst: u32) -> i32
    ensures { result ≡ signed_of 16 (field 15 17 inst) }
{
    let imm = extract_imm(inst);
    if imm < 1 << IMM_SIGN_BIT {
        imm as i32
    } else {
        (imm as i32) - (IMM_SIGN_EXTEND as i32)
    }
}

#[tactic(auto, using(crate::proofs::Signs::low_read, crate::proofs::Signs::high_offset))]
pub fn extract_offset_signed(inst: u32) -> i32
    ensures { result ≡ signed_of 20 (field 11 21 inst) }
{
    let offset = extract_offset(inst);
    if offset < 1 << OFFSET_SIGN_BIT {
        offset as i32
    } else {
        (offset as i32) - (OFFSET_SIGN_EXTEND as i32)
    }
}

// A store or branch has rs1 where the others have rd, and rs2 where they have rs1.
pub fn extract_stype_rs1(inst: u32) -> u32
    ensures { result ≡ field 7 4 inst }
{
    extract_rd(inst)
}

pub fn extract_stype_rs2(inst: u32) -> u32
    ensures { result ≡ field 11 4 inst }
{
    extract_rs1(inst)
}

pub fn extract_stype_imm(inst: u32) -> u32
    ensures { result ≡ field 15 17 inst }
{
    extract_imm(inst)
}
