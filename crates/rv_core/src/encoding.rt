//! Words from instructions, by the table.

ghost use Rattle.std.specs.Prelude.{◌≡◌, ◌<◌, Some};
ghost use Rattle.rv_core.specs.Formats.{b_type, i_type, s_type, r_type, IsFields};
ghost use Rattle.rv_core.specs.Table.{branch_type, load_type, store_type, reg_type, imm_type, fields_of, encode_of, IsInRange, IsRegister, IsConstant};
ghost use Rattle.rv_core.specs.Decoding.{decode_of};

use crate::fields::Fields;
use crate::format::{format_b, format_fence, format_i, format_j, format_s, format_shift, format_u};
use crate::instr::{BranchOp, ImmOp, Instr, LoadOp, RegOp, StoreOp};
use crate::opcode::{AUIPC, BRANCH, JAL, JALR, LOAD, LUI, MISC_MEM, OP, OP_IMM, STORE, SYSTEM};

// The funct3 of a branch.
fn branch_funct3(op: BranchOp) -> u8
    ensures table { b_type BRANCH result ≡ branch_type op }
    ensures fit { result < 8 }
{
    match op {
        BranchOp::Beq => 0b000,
        BranchOp::Bne => 0b001,
        BranchOp::Blt => 0b100,
        BranchOp::Bge => 0b101,
        BranchOp::Bltu => 0b110,
        BranchOp::Bgeu => 0b111,
    }
}

// The funct3 of a load.
fn load_funct3(op: LoadOp) -> u8
    ensures table { i_type LOAD result ≡ load_type op }
    ensures fit { result < 8 }
{
    match op {
        LoadOp::Lb => 0b000,
        LoadOp::Lh => 0b001,
        LoadOp::Lw => 0b010,
        LoadOp::Lbu => 0b100,
        LoadOp::Lhu => 0b101,
    }
}

// The funct3 of a store.
fn store_funct3(op: StoreOp) -> u8
    ensures table { s_type STORE result ≡ store_type op }
    ensures fit { result < 8 }
{
    match op {
        StoreOp::Sb => 0b000,
        StoreOp::Sh => 0b001,
        StoreOp::Sw => 0b010,
    }
}

// The funct3 and the funct7 of an operation on two registers.
fn reg_functs(op: RegOp) -> (u8, u8)
    ensures table { r_type OP result.0 result.1 ≡ reg_type op }
    ensures fit { (result.0 < 8) × (result.1 < 128) }
{
    match op {
        RegOp::Add => (0b000, 0b0000000),
        RegOp::Sub => (0b000, 0b0100000),
        RegOp::Sll => (0b001, 0b0000000),
        RegOp::Slt => (0b010, 0b0000000),
        RegOp::Sltu => (0b011, 0b0000000),
        RegOp::Xor => (0b100, 0b0000000),
        RegOp::Srl => (0b101, 0b0000000),
        RegOp::Sra => (0b101, 0b0100000),
        RegOp::Or => (0b110, 0b0000000),
        RegOp::And => (0b111, 0b0000000),
        RegOp::Mul => (0b000, 0b0000001),
        RegOp::Mulh => (0b001, 0b0000001),
        RegOp::Mulhsu => (0b010, 0b0000001),
        RegOp::Mulhu => (0b011, 0b0000001),
        RegOp::Div => (0b100, 0b0000001),
        RegOp::Divu => (0b101, 0b0000001),
        RegOp::Rem => (0b110, 0b0000001),
        RegOp::Remu => (0b111, 0b0000001),
    }
}

fn op_fields(op: RegOp, rd: u8, rs1: u8, rs2: u8) -> Fields
    requires { IsRegister rd × IsRegister rs1 × IsRegister rs2 }
    ensures fields { result ≡ reg_type op rd rs1 rs2 }
    ensures fit { IsFields result }
{
    let (funct3, funct7) = reg_functs(op);
    Fields {
        opcode: OP,
        rd,
        funct3,
        rs1,
        rs2,
        funct7,
    }
}

fn imm_fields(op: ImmOp, rd: u8, rs1: u8, imm: i32) -> Fields
    requires registers { IsRegister rd × IsRegister rs1 }
    requires constant { IsConstant op imm }
    ensures fields { result ≡ imm_type op rd rs1 imm }
    ensures fit { IsFields result }
{
    match op {
        ImmOp::Addi => format_i(OP_IMM, 0b000, rd, rs1, imm),
        ImmOp::Slti => format_i(OP_IMM, 0b010, rd, rs1, imm),
        ImmOp::Sltiu => format_i(OP_IMM, 0b011, rd, rs1, imm),
        ImmOp::Xori => format_i(OP_IMM, 0b100, rd, rs1, imm),
        ImmOp::Ori => format_i(OP_IMM, 0b110, rd, rs1, imm),
        ImmOp::Andi => format_i(OP_IMM, 0b111, rd, rs1, imm),
        ImmOp::Slli => format_shift(OP_IMM, 0b001, 0b0000000, rd, rs1, imm),
        ImmOp::Srli => format_shift(OP_IMM, 0b101, 0b0000000, rd, rs1, imm),
        ImmOp::Srai => format_shift(OP_IMM, 0b101, 0b0100000, rd, rs1, imm),
    }
}

// ECALL and EBREAK differ by rs2 alone.
fn system_fields(rs2: u8) -> Fields
    requires { rs2 < 32 }
    ensures fields { result ≡ r_type SYSTEM 0b000 0b0000000 0 0 rs2 }
    ensures fit { IsFields result }
{
    Fields {
        opcode: SYSTEM,
        rd: 0,
        funct3: 0b000,
        rs1: 0,
        rs2,
        funct7: 0b0000000,
    }
}

fn instruction_fields(instr: Instr) -> Fields
    requires { IsInRange instr }
    ensures fields { result ≡ fields_of instr }
    ensures fit { IsFields result }
{
    match instr {
        Instr::Lui { rd, imm } => format_u(LUI, rd, imm),
        Instr::Auipc { rd, imm } => format_u(AUIPC, rd, imm),
        Instr::Jal { rd, imm } => format_j(JAL, rd, imm),
        Instr::Jalr { rd, rs1, imm } => format_i(JALR, 0b000, rd, rs1, imm),
        Instr::Branch { op, rs1, rs2, imm } => {
            format_b(BRANCH, branch_funct3(op), rs1, rs2, imm)
        }
        Instr::Load { op, rd, rs1, imm } => format_i(LOAD, load_funct3(op), rd, rs1, imm),
        Instr::Store { op, rs1, rs2, imm } => format_s(STORE, store_funct3(op), rs1, rs2, imm),
        Instr::OpImm { op, rd, rs1, imm } => imm_fields(op, rd, rs1, imm),
        Instr::Op { op, rd, rs1, rs2 } => op_fields(op, rd, rs1, rs2),
        Instr::Fence { rest } => format_fence(MISC_MEM, 0b000, rest),
        Instr::Ecall => system_fields(0),
        Instr::Ebreak => system_fields(1),
    }
}

/// Answers the word of an instruction (RISC-V Unprivileged ISA, "RV32/64G Instruction Set
/// Listings"). `decode` gives the instruction back.
#[tactic(auto, using(crate::proofs::RoundTrip::decode_of_encode_of), unfolding(crate::specs::Table::encode_of))]
pub fn encode(instr: Instr) -> u32
    requires { IsInRange instr }
    ensures word { result ≡ encode_of instr }
    ensures back { decode_of result ≡ Some instr }
{
    instruction_fields(instr).join()
}
