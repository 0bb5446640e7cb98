//! The cost of a word.

ghost use Rattle.std.specs.Prelude.{◌≡◌, ◌<◌, ◌≤◌};
ghost use Rattle.soc_base.specs.declared.limits.TheConstants.{MOST_COST};
ghost use Rattle.rv_core.specs.Table.{IsInRange};
ghost use Rattle.cycle_table.specs.Cost.{cost_of, cost_of_instr, access_cost, reg_op_cost};

use platform_model::Costs;
use rv_core::{Instr, RegOp, Regs, decode};

/// The first address of the device registers.
pub const DEVICE_BASE: u32 = 0x8000_0000;

// The cost of an access: a device register's cost from `DEVICE_BASE` on.
fn access(costs: &Costs, memory: u8, addr: u32) -> u8
    requires { (0 < memory) × (memory ≤ MOST_COST) }
    ensures value { result ≡ access_cost costs.now memory addr }
    ensures range { (0 < result) × (result ≤ MOST_COST) }
{
    if addr < DEVICE_BASE {
        memory
    } else {
        costs.device
    }
}

// The cost of an operation on two registers.
fn reg_op(costs: &Costs, op: RegOp) -> u8
    ensures value { result ≡ reg_op_cost costs.now op }
    ensures range { (0 < result) × (result ≤ MOST_COST) }
{
    match op {
        RegOp::Mul | RegOp::Mulh | RegOp::Mulhsu | RegOp::Mulhu => costs.mul,
        RegOp::Div | RegOp::Divu | RegOp::Rem | RegOp::Remu => costs.div,
        RegOp::Add
        | RegOp::Sub
        | RegOp::Sll
        | RegOp::Slt
        | RegOp::Sltu
        | RegOp::Xor
        | RegOp::Srl
        | RegOp::Sra
        | RegOp::Or
        | RegOp::And => costs.integer,
    }
}

/// Answers the cost of an instruction, in running cycles from 1 to `MOST_COST`: by the registers as they
/// are before it.
pub fn instr_cost(costs: &Costs, regs: &Regs, instr: Instr) -> u8
    requires { IsInRange instr }
    ensures value { result ≡ cost_of_instr costs.now regs.now instr }
    ensures range { (0 < result) × (result ≤ MOST_COST) }
{
    match instr {
        Instr::Lui { .. } | Instr::Auipc { .. } | Instr::OpImm { .. } => costs.integer,
        Instr::Op { op, .. } => reg_op(costs, op),
        Instr::Load { rs1, imm, .. } => access(costs, costs.load, regs.address(rs1, imm)),
        Instr::Store { rs1, imm, .. } => access(costs, costs.store, regs.address(rs1, imm)),
        Instr::Branch { op, rs1, rs2, .. } => {
            if op.is_taken(regs.read(rs1), regs.read(rs2)) {
                costs.taken
            } else {
                costs.untaken
            }
        }
        Instr::Jal { .. } | Instr::Jalr { .. } => costs.jump,
        Instr::Fence { .. } | Instr::Ecall | Instr::Ebreak => costs.system,
    }
}

/// Answers the cost of the word at pc, in running cycles from 1 to `MOST_COST`: by the registers as they are
/// before the instruction, 1 where there is no word or it is no instruction.
#[tactic(auto, unfolding(crate::specs::Cost::cost_of))]
pub fn cost(costs: &Costs, regs: &Regs, word: Option<u32>) -> u8
    ensures value { result ≡ cost_of costs.now regs.now word }
    ensures range { (0 < result) × (result ≤ MOST_COST) }
{
    let Some(word) = word else {
        return 1;
    };
    match decode(word) {
        Some(instr) => instr_cost(costs, regs, instr),
        None => 1,
    }
}
