// The fifty opcodes (document 01, "Words") and their numbers, and the forms that words have.
#![tactic(auto)]

ghost use Rattle.std.specs.Prelude.{◌≡◌, true, eqb};
ghost use Rattle.encoding.specs.Fields.{within};
ghost use Rattle.opcode.specs.Opcodes.{opcode_number, opcode_in};

// The fifty, in document 01's order.
#[derive(Clone, Copy)]
pub enum Opcode {
    Add,
    Sub,
    Mul,
    Mulh,
    Div,
    Divu,
    Rem,
    Remu,
    Addi,
    And,
    Or,
    Xor,
    Andi,
    Ori,
    Xori,
    Sll,
    Srl,
    Sra,
    Slli,
    Srli,
    Srai,
    Slt,
    Sltu,
    Sge,
    Sgeu,
    Seq,
    Sne,
    Cmov,
    Cmovz,
    Cmovnz,
    Lb,
    Lbu,
    Lh,
    Lhu,
    Lw,
    Ld,
    Sb,
    Sh,
    Sw,
    Sd,
    Beq,
    Bne,
    Blt,
    Bge,
    Bltu,
    Bgeu,
    Jal,
    Jalr,
    Ecall,
    Ebreak,
}

// How an instruction lies in its word: by its kind, but that a shift amount has six bits, and Ecall and Ebreak have no operands.
#[derive(Clone, Copy)]
pub enum Form {
    R,
    I,
    Shift,
    S,
    B,
    J,
    Alone,
}

pub fn opcode_number(op: Opcode) -> u8
    ensures { result ≡ opcode_number op }
{
    match op {
        Opcode::Add => 1,
        Opcode::Sub => 2,
        Opcode::Mul => 3,
        Opcode::Mulh => 4,
        Opcode::Div => 5,
        Opcode::Divu => 6,
        Opcode::Rem => 7,
        Opcode::Remu => 8,
        Opcode::Addi => 9,
        Opcode::And => 10,
        Opcode::Or => 11,
        Opcode::Xor => 12,
        Opcode::Andi => 13,
        Opcode::Ori => 14,
        Opcode::Xori => 15,
        Opcode::Sll => 16,
        Opcode::Srl => 17,
        Opcode::Sra => 18,
        Opcode::Slli => 19,
        Opcode::Srli => 20,
        Opcode::Srai => 21,
        Opcode::Slt => 22,
        Opcode::Sltu => 23,
        Opcode::Sge => 24,
        Opcode::Sgeu => 25,
        Opcode::Seq => 26,
        Opcode::Sne => 27,
        Opcode::Cmov => 28,
        Opcode::Cmovz => 29,
        Opcode::Cmovnz => 30,
        Opcode::Lb => 31,
        Opcode::Lbu => 32,
        Opcode::Lh => 33,
        Opcode::Lhu => 34,
        Opcode::Lw => 35,
        Opcode::Ld => 36,
        Opcode::Sb => 37,
        Opcode::Sh => 38,
        Opcode::Sw => 39,
        Opcode::Sd => 40,
        Opcode::Beq => 41,
        Opcode::Bne => 42,
        Opcode::Blt => 43,
        Opcode::Bge => 44,
        Opcode::Bltu => 45,
        Opcode::Bgeu => 46,
        Opcode::Jal => 47,
        Opcode::Jalr => 48,
        Opcode::Ecall => 49,
        Opcode::Ebreak => 50,
    }
}

// Of a number that has one.
#[tactic(auto, unfolding(crate::specs::Opcodes::first_with, crate::specs::Opcodes::all))]
fn opcode_at(n: u8) -> Opcode
    requires { within 1 50 n ≡ true }
    ensures { Some result ≡ opcode_in opcode_number n }
{
    match n {
        1 => Opcode::Add,
        2 => Opcode::Sub,
        3 => Opcode::Mul,
        4 => Opcode::Mulh,
        5 => Opcode::Div,
        6 => Opcode::Divu,
        7 => Opcode::Rem,
        8 => Opcode::Remu,
        9 => Opcode::Addi,
        10 => Opcode::And,
        11 => Opcode::Or,
        12 => Opcode::Xor,
        13 => Opcode::Andi,
        14 => Opcode::Ori,
        15 => Opcode::Xori,
        16 => Opcode::Sll,
        17 => Opcode::Srl,
        18 => Opcode::Sra,
        19 => Opcode::Slli,
        20 => Opcode::Srli,
        21 => Opcode::Srai,
        22 => Opcode::Slt,
        23 => Opcode::Sltu,
        24 => Opcode::Sge,
        25 => Opcode::Sgeu,
        26 => Opcode::Seq,
        27 => Opcode::Sne,
        28 => Opcode::Cmov,
        29 => Opcode::Cmovz,
        30 => Opcode::Cmovnz,
        31 => Opcode::Lb,
        32 => Opcode::Lbu,
        33 => Opcode::Lh,
        34 => Opcode::Lhu,
        35 => Opcode::Lw,
        36 => Opcode::Ld,
        37 => Opcode::Sb,
        38 => Opcode::Sh,
        39 => Opcode::Sw,
        40 => Opcode::Sd,
        41 => Opcode::Beq,
        42 => Opcode::Bne,
        43 => Opcode::Blt,
        44 => Opcode::Bge,
        45 => Opcode::Bltu,
        46 => Opcode::Bgeu,
        47 => Opcode::Jal,
        48 => Opcode::Jalr,
        49 => Opcode::Ecall,
        _ => Opcode::Ebreak,
    }
}

pub fn same(a: Opcode, b: Opcode) -> bool
    ensures { result ≡ eqb (opcode_number a) (opcode_number b) }
{
    opcode_number(a) == opcode_number(b)
}

// The opcode of a number. One range test when compiled: the variants stand in the order of their numbers.
pub fn opcode_of(n: u8) -> Option<Opcode>
    ensures { result ≡ opcode_in opcode_number n }
{
    if (1 <= n) & (n <= 50) {
        Some(opcode_at(n))
    } else {
        None
    }
}
