// The names of the fifty opcodes, as keys: what the assembler reads and the printer writes.
#![tactic(auto)]

mod keys; // keys.rt: the fifty

ghost use Rattle.std.specs.Prelude.{◌≡◌};
ghost use Rattle.opcode.specs.Opcodes.{opcode_in};
ghost use Rattle.names.specs.Names.{name_key};

use opcode::{Opcode, opcode_number};

const KEYS: [u64; 50] = [
    keys::ADD,
    keys::SUB,
    keys::MUL,
    keys::MULH,
    keys::DIV,
    keys::DIVU,
    keys::REM,
    keys::REMU,
    keys::ADDI,
    keys::AND,
    keys::OR,
    keys::XOR,
    keys::ANDI,
    keys::ORI,
    keys::XORI,
    keys::SLL,
    keys::SRL,
    keys::SRA,
    keys::SLLI,
    keys::SRLI,
    keys::SRAI,
    keys::SLT,
    keys::SLTU,
    keys::SGE,
    keys::SGEU,
    keys::SEQ,
    keys::SNE,
    keys::CMOV,
    keys::CMOVZ,
    keys::CMOVNZ,
    keys::LB,
    keys::LBU,
    keys::LH,
    keys::LHU,
    keys::LW,
    keys::LD,
    keys::SB,
    keys::SH,
    keys::SW,
    keys::SD,
    keys::BEQ,
    keys::BNE,
    keys::BLT,
    keys::BGE,
    keys::BLTU,
    keys::BGEU,
    keys::JAL,
    keys::JALR,
    keys::ECALL,
    keys::EBREAK,
];

// The key of an opcode's name.
pub fn name_of(op: Opcode) -> u64
    ensures { result ≡ name_key op }
{
    KEYS[usize::from(opcode_number(op)) - 1]
}

// The opcode whose name has a key. A search in the table would copy it for each look.
#[tactic(auto, unfolding(opcode::specs::Opcodes::all, opcode::specs::Opcodes::first_with, labels::specs::Bytes::key_from))]
pub fn named(key: u64) -> Option<Opcode>
    ensures { result ≡ opcode_in name_key key }
{
    match key {
        keys::ADD => Some(Opcode::Add),
        keys::SUB => Some(Opcode::Sub),
        keys::MUL => Some(Opcode::Mul),
        keys::MULH => Some(Opcode::Mulh),
        keys::DIV => Some(Opcode::Div),
        keys::DIVU => Some(Opcode::Divu),
        keys::REM => Some(Opcode::Rem),
        keys::REMU => Some(Opcode::Remu),
        keys::ADDI => Some(Opcode::Addi),
        keys::AND => Some(Opcode::And),
        keys::OR => Some(Opcode::Or),
        keys::XOR => Some(Opcode::Xor),
        keys::ANDI => Some(Opcode::Andi),
        keys::ORI => Some(Opcode::Ori),
        keys::XORI => Some(Opcode::Xori),
        keys::SLL => Some(Opcode::Sll),
        keys::SRL => Some(Opcode::Srl),
        keys::SRA => Some(Opcode::Sra),
        keys::SLLI => Some(Opcode::Slli),
        keys::SRLI => Some(Opcode::Srli),
        keys::SRAI => Some(Opcode::Srai),
        keys::SLT => Some(Opcode::Slt),
        keys::SLTU => Some(Opcode::Sltu),
        keys::SGE => Some(Opcode::Sge),
        keys::SGEU => Some(Opcode::Sgeu),
        keys::SEQ => Some(Opcode::Seq),
        keys::SNE => Some(Opcode::Sne),
        keys::CMOV => Some(Opcode::Cmov),
        keys::CMOVZ => Some(Opcode::Cmovz),
        keys::CMOVNZ => Some(Opcode::Cmovnz),
        keys::LB => Some(Opcode::Lb),
        keys::LBU => Some(Opcode::Lbu),
        keys::LH => Some(Opcode::Lh),
        keys::LHU => Some(Opcode::Lhu),
        keys::LW => Some(Opcode::Lw),
        keys::LD => Some(Opcode::Ld),
        keys::SB => Some(Opcode::Sb),
        keys::SH => Some(Opcode::Sh),
        keys::SW => Some(Opcode::Sw),
        keys::SD => Some(Opcode::Sd),
        keys::BEQ => Some(Opcode::Beq),
        keys::BNE => Some(Opcode::Bne),
        keys::BLT => Some(Opcode::Blt),
        keys::BGE => Some(Opcode::Bge),
        keys::BLTU => Some(Opcode::Bltu),
        keys::BGEU => Some(Opcode::Bgeu),
        keys::JAL => Some(Opcode::Jal),
        keys::JALR => Some(Opcode::Jalr),
        keys::ECALL => Some(Opcode::Ecall),
        keys::EBREAK => Some(Opcode::Ebreak),
        _ => None,
    }
}
