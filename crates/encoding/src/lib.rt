// Fields of a word, the raw encoders and the kinds of words: the Rust's encoding.rs, under its names.
#![tactic(auto)]

pub mod fields;
pub mod kinds;
pub mod raw;

pub use fields::{
    FUNCT_MASK, FUNCT_SHIFT, IMM_MASK, IMM_SHIFT, IMM_SIGN_BIT, IMM_SIGN_EXTEND, OFFSET_MASK,
    OFFSET_SHIFT, OPCODE_MASK, OPCODE_SHIFT, RD_SHIFT, REGISTER_MASK, RS1_SHIFT, RS2_SHIFT,
    extract_funct, extract_imm, extract_imm_signed, extract_offset, extract_offset_signed,
    extract_opcode, extract_rd, extract_rs1, extract_rs2, extract_stype_imm, extract_stype_rs1,
    extract_stype_rs2,
};
pub use kinds::{is_btype, is_itype, is_jtype, is_rtype, is_stype};
pub use raw::{encode_btype, encode_itype, encode_jtype, encode_rtype, encode_stype};
