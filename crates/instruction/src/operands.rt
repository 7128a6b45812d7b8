// An instruction taken apart into its opcode and operands, and joined again.
ghost use Rattle.std.specs.Prelude.{◌≡◌};
ghost use Rattle.instruction.specs.Operands.{instruction_of, parts_of, three, two, of_division, of_operation, of_imm_operation, of_move, of_load, of_store, of_branch};
ghost use Rattle.instruction.specs.Kinds.{division_of, operation_of, imm_operation_of, move_kind_of, load_kind_of, store_kind_of, branch_kind_of};

use super::{
    BranchKind, Division, ImmOperation, Instruction, LoadKind, MoveKind, Operation, Parts,
    StoreKind,
};
use opcode::Opcode;

fn division(op: Opcode) -> Division
    ensures { result ≡ division_of op }
{
    match op {
        Opcode::Divu => Division::Divu,
        Opcode::Rem => Division::Rem,
        Opcode::Remu => Division::Remu,
        _ => Division::Div,
    }
}

fn divide(op: Division, p: Parts) -> Instruction
    ensures { result ≡ Instruction.Divide op p.a p.b p.c }
{
    Instruction::Divide {
        op,
        rd: p.a,
        rs1: p.b,
        rs2: p.c,
    }
}

fn operation(op: Opcode) -> Operation
    ensures { result ≡ operation_of op }
{
    match op {
        Opcode::And => Operation::And,
        Opcode::Or => Operation::Or,
        Opcode::Xor => Operation::Xor,
        Opcode::Sll => Operation::Sll,
        Opcode::Srl => Operation::Srl,
        Opcode::Sra => Operation::Sra,
        Opcode::Slt => Operation::Slt,
        Opcode::Sltu => Operation::Sltu,
        Opcode::Sge => Operation::Sge,
        Opcode::Sgeu => Operation::Sgeu,
        Opcode::Seq => Operation::Seq,
        Opcode::Sne => Operation::Sne,
        _ => Operation::Mulh,
    }
}

fn operate(op: Operation, p: Parts) -> Instruction
    ensures { result ≡ Instruction.Op op p.a p.b p.c }
{
    Instruction::Op {
        op,
        rd: p.a,
        rs1: p.b,
        rs2: p.c,
    }
}

fn imm_operation(op: Opcode) -> ImmOperation
    ensures { result ≡ imm_operation_of op }
{
    match op {
        Opcode::Ori => ImmOperation::Ori,
        Opcode::Xori => ImmOperation::Xori,
        Opcode::Slli => ImmOperation::Slli,
        Opcode::Srli => ImmOperation::Srli,
        Opcode::Srai => ImmOperation::Srai,
        _ => ImmOperation::Andi,
    }
}

fn operate_imm(op: ImmOperation, p: Parts) -> Instruction
    ensures { result ≡ Instruction.OpImm op p.a p.b p.imm }
{
    Instruction::OpImm {
        op,
        rd: p.a,
        rs1: p.b,
        imm: p.imm,
    }
}

fn move_kind(op: Opcode) -> MoveKind
    ensures { result ≡ move_kind_of op }
{
    match op {
        Opcode::Cmovz => MoveKind::Cmovz,
        Opcode::Cmovnz => MoveKind::Cmovnz,
        _ => MoveKind::Cmov,
    }
}

fn move_if(op: MoveKind, p: Parts) -> Instruction
    ensures { result ≡ Instruction.Move op p.a p.b p.c }
{
    Instruction::Move {
        op,
        rd: p.a,
        rs1: p.b,
        rs2: p.c,
    }
}

fn load_kind(op: Opcode) -> LoadKind
    ensures { result ≡ load_kind_of op }
{
    match op {
        Opcode::Lbu => LoadKind::Lbu,
        Opcode::Lh => LoadKind::Lh,
        Opcode::Lhu => LoadKind::Lhu,
        Opcode::Lw => LoadKind::Lw,
        Opcode::Ld => LoadKind::Ld,
        _ => LoadKind::Lb,
    }
}

fn load(op: LoadKind, p: Parts) -> Instruction
    ensures { result ≡ Instruction.Load op p.a p.b p.imm }
{
    Instruction::Load {
        op,
        rd: p.a,
        rs1: p.b,
        imm: p.imm,
    }
}

fn store_kind(op: Opcode) -> StoreKind
    ensures { result ≡ store_kind_of op }
{
    match op {
        Opcode::Sh => StoreKind::Sh,
        Opcode::Sw => StoreKind::Sw,
        Opcode::Sd => StoreKind::Sd,
        _ => StoreKind::Sb,
    }
}

fn store(op: StoreKind, p: Parts) -> Instruction
    ensures { result ≡ Instruction.Store op p.a p.b p.imm }
{
    Instruction::Store {
        op,
        rs1: p.a,
        rs2: p.b,
        imm: p.imm,
    }
}

fn branch_kind(op: Opcode) -> BranchKind
    ensures { result ≡ branch_kind_of op }
{
    match op {
        Opcode::Bne => BranchKind::Bne,
        Opcode::Blt => BranchKind::Blt,
        Opcode::Bge => BranchKind::Bge,
        Opcode::Bltu => BranchKind::Bltu,
        Opcode::Bgeu => BranchKind::Bgeu,
        _ => BranchKind::Beq,
    }
}

fn branch(op: BranchKind, p: Parts) -> Instruction
    ensures { result ≡ Instruction.Branch op p.a p.b p.imm }
{
    Instruction::Branch {
        op,
        rs1: p.a,
        rs2: p.b,
        imm: p.imm,
    }
}

// The operands that the opcode lacks are ignored.
pub fn instruction_of(p: Parts) -> Instruction
    ensures { result ≡ instruction_of p }
{
    let op = p.op;
    match op {
        Opcode::Add => Instruction::Add {
            rd: p.a,
            rs1: p.b,
            rs2: p.c,
        },
        Opcode::Sub => Instruction::Sub {
            rd: p.a,
            rs1: p.b,
            rs2: p.c,
        },
        Opcode::Mul => Instruction::Mul {
            rd: p.a,
            rs1: p.b,
            rs2: p.c,
        },
        Opcode::Addi => Instruction::Addi {
            rd: p.a,
            rs1: p.b,
            imm: p.imm,
        },
        Opcode::Jal => Instruction::Jal {
            rd: p.a,
            imm: p.imm,
        },
        Opcode::Jalr => Instruction::Jalr {
            rd: p.a,
            rs1: p.b,
            imm: p.imm,
        },
        Opcode::Ecall => Instruction::Ecall,
        Opcode::Ebreak => Instruction::Ebreak,
        Opcode::Div | Opcode::Divu | Opcode::Rem | Opcode::Remu => divide(division(op), p),
        Opcode::Andi | Opcode::Ori | Opcode::Xori | Opcode::Slli | Opcode::Srli | Opcode::Srai =>
            operate_imm(imm_operation(op), p),
        Opcode::Cmov | Opcode::Cmovz | Opcode::Cmovnz => move_if(move_kind(op), p),
        Opcode::Lb | Opcode::Lbu | Opcode::Lh | Opcode::Lhu | Opcode::Lw | Opcode::Ld => load(
            load_kind(op),
            p,
        ),
        Opcode::Sb | Opcode::Sh | Opcode::Sw | Opcode::Sd => store(store_kind(op), p),
        Opcode::Beq | Opcode::Bne | Opcode::Blt | Opcode::Bge | Opcode::Bltu | Opcode::Bgeu =>
            branch(branch_kind(op), p),
        Opcode::Mulh
        | Opcode::And
        | Opcode::Or
        | Opcode::Xor
        | Opcode::Sll
        | Opcode::Srl
        | Opcode::Sra
        | Opcode::Slt
        | Opcode::Sltu
        | Opcode::Sge
        | Opcode::Sgeu
        | Opcode::Seq
        | Opcode::Sne => operate(operation(op), p),
    }
}

fn of_division(op: Division) -> Opcode
    ensures { result ≡ of_division op }
{
    match op {
        Division::Div => Opcode::Div,
        Division::Divu => Opcode::Divu,
        Division::Rem => Opcode::Rem,
        Division::Remu => Opcode::Remu,
    }
}

fn of_operation(op: Operation) -> Opcode
    ensures { result ≡ of_operation op }
{
    match op {
        Operation::Mulh => Opcode::Mulh,
        Operation::And => Opcode::And,
        Operation::Or => Opcode::Or,
        Operation::Xor => Opcode::Xor,
        Operation::Sll => Opcode::Sll,
        Operation::Srl => Opcode::Srl,
        Operation::Sra => Opcode::Sra,
        Operation::Slt => Opcode::Slt,
        Operation::Sltu => Opcode::Sltu,
        Operation::Sge => Opcode::Sge,
        Operation::Sgeu => Opcode::Sgeu,
        Operation::Seq => Opcode::Seq,
        Operation::Sne => Opcode::Sne,
    }
}

fn of_imm_operation(op: ImmOperation) -> Opcode
    ensures { result ≡ of_imm_operation op }
{
    match op {
        ImmOperation::Andi => Opcode::Andi,
        ImmOperation::Ori => Opcode::Ori,
        ImmOperation::Xori => Opcode::Xori,
        ImmOperation::Slli => Opcode::Slli,
        ImmOperation::Srli => Opcode::Srli,
        ImmOperation::Srai => Opcode::Srai,
    }
}

fn of_move(op: MoveKind) -> Opcode
    ensures { result ≡ of_move op }
{
    match op {
        MoveKind::Cmov => Opcode::Cmov,
        MoveKind::Cmovz => Opcode::Cmovz,
        MoveKind::Cmovnz => Opcode::Cmovnz,
    }
}

fn of_load(op: LoadKind) -> Opcode
    ensures { result ≡ of_load op }
{
    match op {
        LoadKind::Lb => Opcode::Lb,
        LoadKind::Lbu => Opcode::Lbu,
        LoadKind::Lh => Opcode::Lh,
        LoadKind::Lhu => Opcode::Lhu,
        LoadKind::Lw => Opcode::Lw,
        LoadKind::Ld => Opcode::Ld,
    }
}

fn of_store(op: StoreKind) -> Opcode
    ensures { result ≡ of_store op }
{
    match op {
        StoreKind::Sb => Opcode::Sb,
        StoreKind::Sh => Opcode::Sh,
        StoreKind::Sw => Opcode::Sw,
        StoreKind::Sd => Opcode::Sd,
    }
}

fn of_branch(op: BranchKind) -> Opcode
    ensures { result ≡ of_branch op }
{
    match op {
        BranchKind::Beq => Opcode::Beq,
        BranchKind::Bne => Opcode::Bne,
        BranchKind::Blt => Opcode::Blt,
        BranchKind::Bge => Opcode::Bge,
        BranchKind::Bltu => Opcode::Bltu,
        BranchKind::Bgeu => Opcode::Bgeu,
    }
}

fn with_three(op: Opcode, a: u8, b: u8, c: u8) -> Parts
    ensures { result ≡ three op a b c }
{
    Parts {
        op,
        a,
        b,
        c,
        imm: 0,
    }
}

fn with_two(op: Opcode, a: u8, b: u8, imm: u64) -> Parts
    ensures { result ≡ two op a b imm }
{
    Parts {
        op,
        a,
        b,
        c: 0,
        imm,
    }
}

// 0 stands for the operands that an instruction lacks.
pub fn parts_of(i: Instruction) -> Parts
    ensures { result ≡ parts_of i }
{
    match i {
        Instruction::Add { rd, rs1, rs2 } => with_three(Opcode::Add, rd, rs1, rs2),
        Instruction::Sub { rd, rs1, rs2 } => with_three(Opcode::Sub, rd, rs1, rs2),
        Instruction::Addi { rd, rs1, imm } => with_two(Opcode::Addi, rd, rs1, imm),
        Instruction::Mul { rd, rs1, rs2 } => with_three(Opcode::Mul, rd, rs1, rs2),
        Instruction::Divide { op, rd, rs1, rs2 } => with_three(of_division(op), rd, rs1, rs2),
        Instruction::Op { op, rd, rs1, rs2 } => with_three(of_operation(op), rd, rs1, rs2),
        Instruction::OpImm { op, rd, rs1, imm } => with_two(of_imm_operation(op), rd, rs1, imm),
        Instruction::Move { op, rd, rs1, rs2 } => with_three(of_move(op), rd, rs1, rs2),
        Instruction::Load { op, rd, rs1, imm } => with_two(of_load(op), rd, rs1, imm),
        Instruction::Store { op, rs1, rs2, imm } => with_two(of_store(op), rs1, rs2, imm),
        Instruction::Branch { op, rs1, rs2, imm } => with_two(of_branch(op), rs1, rs2, imm),
        Instruction::Jal { rd, imm } => with_two(Opcode::Jal, rd, 0, imm),
        Instruction::Jalr { rd, rs1, imm } => with_two(Opcode::Jalr, rd, rs1, imm),
        Instruction::Ecall => with_three(Opcode::Ecall, 0, 0, 0),
        Instruction::Ebreak => with_three(Opcode::Ebreak, 0, 0, 0),
    }
}
