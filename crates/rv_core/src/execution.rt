//! One step of a hart: an instruction, its registers and a bus.

ghost use Rattle.std.specs.Prelude.{◌≡◌, ◌≢◌};
ghost use Rattle.rv_core.specs.Access.{load_width, IsLoaded};
ghost use Rattle.rv_core.specs.Table.{IsInRange, IsRegister};
ghost use Rattle.rv_core.specs.Effect.{step_of, next, set, jump, link, branch, after_load, after_store};

use crate::arithmetic::{
    extended, immediate_result, register_result, stored, width_of_load, width_of_store,
};
use crate::bus::{Answer, Bus};
use crate::instr::{Instr, LoadOp};
use crate::regs::Regs;
use soc_base::Cause;

/// How a step of a hart ends.
#[derive(Clone, Copy, Debug, PartialEq, Eq)]
pub enum Outcome {
    /// The instruction is done, and pc has the address of the next one.
    Next,
    /// The bus can't do the access now. Nothing has changed, and the step may be tried again.
    Stall,
    /// ECALL ended the program with the status in x10. Nothing has changed.
    Halt(u32),
    /// The instruction can't be done. Nothing has changed.
    Fault(Cause),
}

fn advance(regs: &mut Regs) -> Outcome
    ensures outcome { result ≡ (next regs.old).outcome }
    ensures regs { regs.new ≡ (next regs.old).regs }
{
    regs.pc = regs.pc.wrapping_add(4);
    Outcome::Next
}

fn write_and_advance(regs: &mut Regs, rd: u8, value: u32) -> Outcome
    requires { IsRegister rd }
    ensures outcome { result ≡ (set regs.old rd value).outcome }
    ensures regs { regs.new ≡ (set regs.old rd value).regs }
{
    regs.write(rd, value);
    advance(regs)
}

fn jump_to(regs: &mut Regs, target: u32) -> Outcome
    ensures outcome { result ≡ (jump regs.old target).outcome }
    ensures regs { regs.new ≡ (jump regs.old target).regs }
{
    if target % 4 != 0 {
        return Outcome::Fault(Cause::Target);
    }
    regs.pc = target;
    Outcome::Next
}

fn link_and_jump(regs: &mut Regs, rd: u8, target: u32) -> Outcome
    requires { IsRegister rd }
    ensures outcome { result ≡ (link regs.old rd target).outcome }
    ensures regs { regs.new ≡ (link regs.old rd target).regs }
{
    if target % 4 != 0 {
        return Outcome::Fault(Cause::Target);
    }
    let back = regs.pc.wrapping_add(4);
    regs.write(rd, back);
    regs.pc = target;
    Outcome::Next
}

fn branch_to(regs: &mut Regs, taken: bool, target: u32) -> Outcome
    ensures outcome { result ≡ (branch regs.old taken target).outcome }
    ensures regs { regs.new ≡ (branch regs.old taken target).regs }
{
    if taken {
        jump_to(regs, target)
    } else {
        advance(regs)
    }
}

fn finish_load(regs: &mut Regs, op: LoadOp, rd: u8, answer: Answer) -> Outcome
    requires register { IsRegister rd }
    requires loaded { IsLoaded (load_width op) answer }
    ensures outcome { result ≡ (after_load regs.old op rd answer).outcome }
    ensures regs { regs.new ≡ (after_load regs.old op rd answer).regs }
{
    match answer {
        Answer::Done(value) => write_and_advance(regs, rd, extended(op, value)),
        Answer::Stall => Outcome::Stall,
        Answer::Fault(cause) => Outcome::Fault(cause),
    }
}

fn finish_store(regs: &mut Regs, answer: Answer) -> Outcome
    ensures outcome { result ≡ (after_store regs.old answer).outcome }
    ensures regs { regs.new ≡ (after_store regs.old answer).regs }
{
    match answer {
        Answer::Done(_) => advance(regs),
        Answer::Stall => Outcome::Stall,
        Answer::Fault(cause) => Outcome::Fault(cause),
    }
}

/// Executes one instruction, as the RISC-V Unprivileged ISA's chapters "RV32I" and "M" say. Asks the
/// bus for at most one access. A taken branch or a jump to an address that isn't a multiple of 4 is
/// the fault `Target`; ECALL halts with x10 as status, and EBREAK is the fault `Break`. Where the
/// outcome isn't `Next`, no register changes.
#[tactic(auto, using(crate::proofs::StepLemmas::registers_stay), unfolding(crate::specs::Effect::request_of, crate::specs::Effect::effect_of))]
pub fn execute<B: Bus>(regs: &mut Regs, bus: &mut B, instr: Instr) -> Outcome
    requires { IsInRange instr }
    ensures outcome { result ≡ (step_of B.answers regs.old (B.state bus.old) instr).outcome }
    ensures regs { regs.new ≡ (step_of B.answers regs.old (B.state bus.old) instr).regs }
    ensures unchanged { result ≢ Outcome.Next → regs.new ≡ regs.old }
    ensures bus { B.state bus.new ≡ (step_of B.answers regs.old (B.state bus.old) instr).bus }
    ensures kept { B.kept bus.new ≡ B.kept bus.old }
{
    match instr {
        Instr::Lui { rd, imm } => write_and_advance(regs, rd, imm),
        Instr::Auipc { rd, imm } => {
            let value = regs.pc.wrapping_add(imm);
            write_and_advance(regs, rd, value)
        }
        Instr::Jal { rd, imm } => {
            let target = regs.pc.wrapping_add(imm.cast_unsigned());
            link_and_jump(regs, rd, target)
        }
        Instr::Jalr { rd, rs1, imm } => {
            let target = regs.address(rs1, imm) / 2 * 2;
            link_and_jump(regs, rd, target)
        }
        Instr::Branch { op, rs1, rs2, imm } => {
            let taken = op.is_taken(regs.read(rs1), regs.read(rs2));
            let target = regs.pc.wrapping_add(imm.cast_unsigned());
            branch_to(regs, taken, target)
        }
        Instr::Load { op, rd, rs1, imm } => {
            let answer = bus.load(regs.address(rs1, imm), width_of_load(op));
            finish_load(regs, op, rd, answer)
        }
        Instr::Store { op, rs1, rs2, imm } => {
            let value = stored(op, regs.read(rs2));
            let answer = bus.store(regs.address(rs1, imm), width_of_store(op), value);
            finish_store(regs, answer)
        }
        Instr::OpImm { op, rd, rs1, imm } => {
            let value = immediate_result(op, regs.read(rs1), imm.cast_unsigned());
            write_and_advance(regs, rd, value)
        }
        Instr::Op { op, rd, rs1, rs2 } => {
            let value = register_result(op, regs.read(rs1), regs.read(rs2));
            write_and_advance(regs, rd, value)
        }
        Instr::Fence { rest: _ } => advance(regs),
        Instr::Ecall => Outcome::Halt(regs.read(10)),
        Instr::Ebreak => Outcome::Fault(Cause::Break),
    }
}
