// The instructions, and their opcodes and operands.
#![tactic(auto)]

pub mod operands;

use opcode::Opcode;
pub use operands::{instruction_of, parts_of};

// The instructions, by what they need. An immediate is its signed number modulo 2^64, as `*imm as u64` in the Rust.
#[derive(Clone, Copy)]
pub enum Instruction {
    Add {
        rd: u8,
        rs1: u8,
        rs2: u8,
    },
    Sub {
        rd: u8,
        rs1: u8,
        rs2: u8,
    },
    Addi {
        rd: u8,
        rs1: u8,
        imm: u64,
    },
    Mul {
        rd: u8,
        rs1: u8,
        rs2: u8,
    },
    Divide {
        op: Division,
        rd: u8,
        rs1: u8,
        rs2: u8,
    },
    Op {
        op: Operation,
        rd: u8,
        rs1: u8,
        rs2: u8,
    },
    OpImm {
        op: ImmOperation,
        rd: u8,
        rs1: u8,
        imm: u64,
    },
    Move {
        op: MoveKind,
        rd: u8,
        rs1: u8,
        rs2: u8,
    },
    Load {
        op: LoadKind,
        rd: u8,
        rs1: u8,
        imm: u64,
    },
    Store {
        op: StoreKind,
        rs1: u8,
        rs2: u8,
        imm: u64,
    },
    Branch {
        op: BranchKind,
        rs1: u8,
        rs2: u8,
        imm: u64,
    },
    Jal {
        rd: u8,
        imm: u64,
    },
    Jalr {
        rd: u8,
        rs1: u8,
        imm: u64,
    },
    Ecall,
    Ebreak,
}

#[derive(Clone, Copy)]
pub enum Division {
    Div,
    Divu,
    Rem,
    Remu,
}

#[derive(Clone, Copy)]
pub enum Operation {
    Mulh,
    And,
    Or,
    Xor,
    Sll,
    Srl,
    Sra,
    Slt,
    Sltu,
    Sge,
    Sgeu,
    Seq,
    Sne,
}

#[derive(Clone, Copy)]
pub enum ImmOperation {
    Andi,
    Ori,
    Xori,
    Slli,
    Srli,
    Srai,
}

#[derive(Clone, Copy)]
pub enum MoveKind {
    Cmov,
    Cmovz,
    Cmovnz,
}

#[derive(Clone, Copy)]
pub enum LoadKind {
    Lb,
    Lbu,
    Lh,
    Lhu,
    Lw,
    Ld,
}

#[derive(Clone, Copy)]
pub enum StoreKind {
    Sb,
    Sh,
    Sw,
    Sd,
}

#[derive(Clone, Copy)]
pub enum BranchKind {
    Beq,
    Bne,
    Blt,
    Bge,
    Bltu,
    Bgeu,
}

// An instruction taken apart: its opcode, the registers at bits 7, 11 and 15 of its word, and the immediate.
#[derive(Clone, Copy)]
pub struct Parts {
    pub op: Opcode,
    pub a: u8,
    pub b: u8,
    pub c: u8,
    pub imm: u64,
}
