// The raw encoders, which cut each field to its bits as the Rust's masks do; `+` joins what shares no bit, as its `|`.
// The opcode is its number here, cut like the other fields: the Rust takes an `Opcode`, which a later crate declares.
ghost use Rattle.std.specs.Prelude.{◌≡◌};
ghost use Rattle.encoding.specs.Words.{r_word, i_word, s_word, j_word};

use super::fields::{
    FUNCT_MASK, FUNCT_SHIFT, IMM_MASK, IMM_SHIFT, OFFSET_MASK, OFFSET_SHIFT, OPCODE_MASK, RD_SHIFT,
    REGISTER_MASK, RS1_SHIFT, RS2_SHIFT,
};

pub fn encode_rtype(opcode: u32, rd: u32, rs1: u32, rs2: u32, funct: u32) -> u32
    ensures { result ≡ r_word opcode rd rs1 rs2 funct }
{
    opcode % (OPCODE_MASK + 1)
        + ((rd % (REGISTER_MASK + 1)) << RD_SHIFT)
        + ((rs1 % (REGISTER_MASK + 1)) << RS1_SHIFT)
        + ((rs2 % (REGISTER_MASK + 1)) << RS2_SHIFT)
        + ((funct % (FUNCT_MASK + 1)) << FUNCT_SHIFT)
}

pub fn encode_itype(opcode: u32, rd: u32, rs1: u32, imm: u32) -> u32
    ensures { result ≡ i_word opcode rd rs1 imm }
{
    opcode % (OPCODE_MASK + 1)
        + ((rd % (REGISTER_MASK + 1)) << RD_SHIFT)
        + ((rs1 % (REGISTER_MASK + 1)) << RS1_SHIFT)
        + ((imm % (IMM_MASK + 1)) << IMM_SHIFT)
}

pub fn encode_stype(opcode: u32, rs1: u32, rs2: u32, imm: u32) -> u32
    ensures { result ≡ s_word opcode rs1 rs2 imm }
{
    opcode % (OPCODE_MASK + 1)
        + ((rs1 % (REGISTER_MASK + 1)) << RD_SHIFT)
        + ((rs2 % (REGISTER_MASK + 1)) << RS1_SHIFT)
        + ((imm % (IMM_MASK + 1)) << IMM_SHIFT)
}

pub fn encode_btype(opcode: u32, rs1: u32, rs2: u32, offset: u32) -> u32
    ensures { result ≡ s_word opcode rs1 rs2 offset }
{
    encode_stype(opcode, rs1, rs2, offset)
}

pub fn encode_jtype(opcode: u32, rd: u32, offset: u32) -> u32
    ensures { result ≡ j_word opcode rd offset }
{
    opcode % (OPCODE_MASK + 1)
        + ((rd % (REGISTER_MASK + 1)) << RD_SHIFT)
        + ((offset % (OFFSET_MASK + 1)) << OFFSET_SHIFT)
}
