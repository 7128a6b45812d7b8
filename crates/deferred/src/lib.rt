// Add, Sub and Addi on limbs, as deferred.rs has them with document 01's changes. An accumulated register is kept as
// low + 2^30 * high. What is kept is decided before anything changes.
#![tactic(auto)]

ghost use Rattle.std.specs.Prelude.{◌≡◌, true, cond};
ghost use Rattle.state.specs.Registers.{holds, noted, normalise};
ghost use Rattle.effect.specs.Notes.{document_notes};
ghost use Rattle.effect.specs.Tables.{is_registers, is_immediate};
ghost use Rattle.instruction.specs.Operands.{instruction_of};
ghost use Rattle.instruction.specs.declared.Instruction.TheVariants.{Sub};
ghost use Rattle.deferred.specs.Limbs.{added, added_imm, limbed, limbs, limbs_if};
ghost use Rattle.opcode.specs.Opcodes.{form_of};
ghost use Rattle.deferred.specs.Plan.{operand, Small, planned_into, planned};

use instruction::Parts;
use opcode::Opcode;
use state::registers::Registers;
use sums::{Operand, Plan};

mod sums; // sums.rt: the sums and differences of limbs, in numbers alone

fn operand_at(registers: &Registers, n: u8) -> Operand
    ensures { (result ≡ operand (holds registers.now n) (noted registers.now n)) × Small result }
{
    Operand {
        low: registers.low_at(n),
        high: registers.high_at(n),
        bound: registers.bound_at(n),
    }
}

fn add(p: Parts, registers: &Registers) -> Plan
    ensures { planned result p.a p.b registers.now ≡ limbed true (added document_notes p.a p.b p.c registers.now) }
{
    sums::sum(operand_at(registers, p.b), operand_at(registers, p.c), p.c)
}

fn add_immediate(p: Parts, registers: &Registers) -> Plan
    ensures { planned result p.a p.b registers.now ≡ limbed true (added_imm document_notes p.a p.b p.imm registers.now) }
{
    sums::sum(operand_at(registers, p.b), sums::constant(p.imm), 0)
}

fn sub(p: Parts, registers: &Registers) -> Plan
    ensures { planned result p.a p.b registers.now ≡ limbs document_notes (Sub p.a p.b p.c) registers.now }
{
    sums::difference(operand_at(registers, p.b), operand_at(registers, p.c))
}

fn normalise_if(forced: bool, registers: &mut Registers, rs1: u8, rs2: u8)
    ensures { registers.new ≡ cond forced (normalise rs2 (normalise rs1 registers.old)) registers.old }
{
    if forced {
        registers.normalise(rs1);
        registers.normalise(rs2);
    }
}

fn carry_out(k: Plan, rd: u8, rs1: u8, registers: &mut Registers)
    ensures { registers.new ≡ planned_into k rd rs1 registers.old }
{
    normalise_if(k.forced, registers, rs1, k.rs2);
    registers.write(rd, k.kept, true, k.bound);
}

fn plan_of_registers(p: Parts, registers: &Registers) -> Plan
    ensures { planned result p.a p.b registers.now ≡ limbs_if (is_registers (form_of p.op)) document_notes (instruction_of p) registers.now }
{
    let op = p.op;
    if opcode::same(op, Opcode::Add) {
        return add(p, registers);
    }
    if opcode::same(op, Opcode::Sub) {
        return sub(p, registers);
    }
    sums::unplanned()
}

fn plan_of_immediate(p: Parts, registers: &Registers) -> Plan
    ensures { planned result p.a p.b registers.now ≡ limbs_if (is_immediate (form_of p.op)) document_notes (instruction_of p) registers.now }
{
    let op = p.op;
    if opcode::same(op, Opcode::Addi) {
        return add_immediate(p, registers);
    }
    sums::unplanned()
}

// Executes Add or Sub on limbs, if it has that form here, and says whether it did. What is of another form is not executed.
pub fn limbs_of_registers(p: Parts, registers: &mut Registers) -> bool
    ensures { limbed result registers.new ≡ limbs_if (is_registers (form_of p.op)) document_notes (instruction_of p) registers.old }
{
    let k = plan_of_registers(p, registers);
    if k.waits {
        carry_out(k, p.a, p.b, registers);
        return true;
    }
    false
}

// Likewise Addi. By itself, since its plan is of one register and a number, and its law of another form.
pub fn limbs_of_immediate(p: Parts, registers: &mut Registers) -> bool
    ensures { limbed result registers.new ≡ limbs_if (is_immediate (form_of p.op)) document_notes (instruction_of p) registers.old }
{
    let k = plan_of_immediate(p, registers);
    if k.waits {
        carry_out(k, p.a, p.b, registers);
        return true;
    }
    false
}
