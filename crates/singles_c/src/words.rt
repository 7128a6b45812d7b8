// Fields, kinds and raw encoders of words: `encoding`.
ghost use Rattle.std.specs.Prelude.{◌≡◌};
ghost use Rattle.encoding.specs.Fields.{field, signed_of};
ghost use Rattle.encoding.specs.Kinds.{is_r, is_i, is_s, is_b, is_j};
ghost use Rattle.encoding.specs.Words.{r_word, i_word, s_word, j_word};

#[unsafe(no_mangle)]
pub extern "C" fn oracle_extract_opcode(word: u32) -> u32
    ensures { result ≡ field 0 7 word }
{
    singles::words::oracle_extract_opcode(word)
}

#[unsafe(no_mangle)]
pub extern "C" fn oracle_extract_rd(word: u32) -> u32
    ensures { result ≡ field 7 4 word }
{
    singles::words::oracle_extract_rd(word)
}

#[unsafe(no_mangle)]
pub extern "C" fn oracle_extract_rs1(word: u32) -> u32
    ensures { result ≡ field 11 4 word }
{
    singles::words::oracle_extract_rs1(word)
}

#[unsafe(no_mangle)]
pub extern "C" fn oracle_extract_rs2(word: u32) -> u32
    ensures { result ≡ field 15 4 word }
{
    singles::words::oracle_extract_rs2(word)
}

#[unsafe(no_mangle)]
pub extern "C" fn oracle_extract_funct(word: u32) -> u32
    ensures { result ≡ field 19 13 word }
{
    singles::words::oracle_extract_funct(word)
}

#[unsafe(no_mangle)]
pub extern "C" fn oracle_extract_imm(word: u32) -> u32
    ensures { result ≡ field 15 17 word }
{
    singles::words::oracle_extract_imm(word)
}

#[unsafe(no_mangle)]
pub extern "C" fn oracle_extract_offset(word: u32) -> u32
    ensures { result ≡ field 11 21 word }
{
    singles::words::oracle_extract_offset(word)
}

#[unsafe(no_mangle)]
pub extern "C" fn oracle_extract_stype_rs1(word: u32) -> u32
    ensures { result ≡ field 7 4 word }
{
    singles::words::oracle_extract_stype_rs1(word)
}

#[unsafe(no_mangle)]
pub extern "C" fn oracle_extract_stype_rs2(word: u32) -> u32
    ensures { result ≡ field 11 4 word }
{
    singles::words::oracle_extract_stype_rs2(word)
}

#[unsafe(no_mangle)]
pub extern "C" fn oracle_extract_stype_imm(word: u32) -> u32
    ensures { result ≡ field 15 17 word }
{
    singles::words::oracle_extract_stype_imm(word)
}

#[unsafe(no_mangle)]
pub extern "C" fn oracle_extract_imm_signed(word: u32) -> i32
    ensures { result ≡ signed_of 16 (field 15 17 word) }
{
    singles::words::oracle_extract_imm_signed(word)
}

#[unsafe(no_mangle)]
pub extern "C" fn oracle_extract_offset_signed(word: u32) -> i32
    ensures { result ≡ signed_of 20 (field 11 21 word) }
{
    singles::words::oracle_extract_offset_signed(word)
}

#[unsafe(no_mangle)]
pub extern "C" fn oracle_is_rtype(word: u32) -> bool
    ensures { result ≡ is_r (field 0 7 word) }
{
    singles::words::oracle_is_rtype(word)
}

#[unsafe(no_mangle)]
pub extern "C" fn oracle_is_itype(word: u32) -> bool
    ensures { result ≡ is_i (field 0 7 word) }
{
    singles::words::oracle_is_itype(word)
}

#[unsafe(no_mangle)]
pub extern "C" fn oracle_is_stype(word: u32) -> bool
    ensures { result ≡ is_s (field 0 7 word) }
{
    singles::words::oracle_is_stype(word)
}

#[unsafe(no_mangle)]
pub extern "C" fn oracle_is_btype(word: u32) -> bool
    ensures { result ≡ is_b (field 0 7 word) }
{
    singles::words::oracle_is_btype(word)
}

#[unsafe(no_mangle)]
pub extern "C" fn oracle_is_jtype(word: u32) -> bool
    ensures { result ≡ is_j (field 0 7 word) }
{
    singles::words::oracle_is_jtype(word)
}

#[unsafe(no_mangle)]
pub extern "C" fn oracle_encode_rtype(opcode: u32, rd: u32, rs1: u32, rs2: u32, funct: u32) -> u32
    ensures { result ≡ r_word opcode rd rs1 rs2 funct }
{
    singles::words::oracle_encode_rtype(opcode, rd, rs1, rs2, funct)
}

#[unsafe(no_mangle)]
pub extern "C" fn oracle_encode_itype(opcode: u32, rd: u32, rs1: u32, imm: u32) -> u32
    ensures { result ≡ i_word opcode rd rs1 imm }
{
    singles::words::oracle_encode_itype(opcode, rd, rs1, imm)
}

#[unsafe(no_mangle)]
pub extern "C" fn oracle_encode_stype(opcode: u32, rs1: u32, rs2: u32, imm: u32) -> u32
    ensures { result ≡ s_word opcode rs1 rs2 imm }
{
    singles::words::oracle_encode_stype(opcode, rs1, rs2, imm)
}

#[unsafe(no_mangle)]
pub extern "C" fn oracle_encode_btype(opcode: u32, rs1: u32, rs2: u32, offset: u32) -> u32
    ensures { result ≡ s_word opcode rs1 rs2 offset }
{
    singles::words::oracle_encode_btype(opcode, rs1, rs2, offset)
}

#[unsafe(no_mangle)]
pub extern "C" fn oracle_encode_jtype(opcode: u32, rd: u32, offset: u32) -> u32
    ensures { result ≡ j_word opcode rd offset }
{
    singles::words::oracle_encode_jtype(opcode, rd, offset)
}
