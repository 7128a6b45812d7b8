// The fifty names, each once, as its key: a number with the last letter in the lowest byte. A constant's value may hold no call, so none
// is computed from the name's text here; the proofs do that.
pub const ADD: u64 = 0x416464;

pub const SUB: u64 = 0x537562;

pub const MUL: u64 = 0x4D756C;

pub const MULH: u64 = 0x4D756C68;

pub const DIV: u64 = 0x446976;

pub const DIVU: u64 = 0x44697675;

pub const REM: u64 = 0x52656D;

pub const REMU: u64 = 0x52656D75;

pub const ADDI: u64 = 0x41646469;

pub const AND: u64 = 0x416E64;

pub const OR: u64 = 0x4F72;

pub const XOR: u64 = 0x586F72;

pub const ANDI: u64 = 0x416E6469;

pub const ORI: u64 = 0x4F7269;

pub const XORI: u64 = 0x586F7269;

pub const SLL: u64 = 0x536C6C;

pub const SRL: u64 = 0x53726C;

pub const SRA: u64 = 0x537261;

pub const SLLI: u64 = 0x536C6C69;

pub const SRLI: u64 = 0x53726C69;

pub const SRAI: u64 = 0x53726169;

pub const SLT: u64 = 0x536C74;

pub const SLTU: u64 = 0x536C7475;

pub const SGE: u64 = 0x536765;

pub const SGEU: u64 = 0x53676575;

pub const SEQ: u64 = 0x536571;

pub const SNE: u64 = 0x536E65;

pub const CMOV: u64 = 0x436D6F76;

pub const CMOVZ: u64 = 0x436D6F767A;

pub const CMOVNZ: u64 = 0x436D6F766E7A;

pub const LB: u64 = 0x4C62;

pub const LBU: u64 = 0x4C6275;

pub const LH: u64 = 0x4C68;

pub const LHU: u64 = 0x4C6875;

pub const LW: u64 = 0x4C77;

pub const LD: u64 = 0x4C64;

pub const SB: u64 = 0x5362;

pub const SH: u64 = 0x5368;

pub const SW: u64 = 0x5377;

pub const SD: u64 = 0x5364;

pub const BEQ: u64 = 0x426571;

pub const BNE: u64 = 0x426E65;

pub const BLT: u64 = 0x426C74;

pub const BGE: u64 = 0x426765;

pub const BLTU: u64 = 0x426C7475;

pub const BGEU: u64 = 0x42676575;

pub const JAL: u64 = 0x4A616C;

pub const JALR: u64 = 0x4A616C72;

pub const ECALL: u64 = 0x4563616C6C;

pub const EBREAK: u64 = 0x45627265616B;
