//! Instructions from words. Each helper answers what `decoded` does for its fields, and that the
//! table gives the fields back.

ghost use Rattle.std.specs.Prelude.{◌≡◌, ◌≢◌, ℤ, IfSome, IfNone};
ghost use Rattle.rv_core.specs.Formats.{b_type, i_type, s_type, r_type, shift_type, IsFields};
ghost use Rattle.rv_core.specs.Table.{branch_type, load_type, store_type, reg_type, imm_type, encode_of, IsInRange, IsOfBits, IsShift, IsConstant};
ghost use Rattle.rv_core.specs.inner.Found.{IsFound};
ghost use Rattle.rv_core.specs.declared.instr.Instr.{Instr};
ghost use Rattle.rv_core.specs.Decoding.{branch_op_at, load_op_at, store_op_at, base_op_at, product_op_at, reg_op_at, imm_op_at, shift_op_at, decoded_shift, decoded_constant, decoded, decode_of};

use crate::fields::Fields;
use crate::immediate::{branch_distance, immediate, jump_distance, rest, store_offset, upper};
use crate::instr::{BranchOp, ImmOp, Instr, LoadOp, RegOp, StoreOp};
use crate::opcode::{AUIPC, BRANCH, JAL, JALR, LOAD, LUI, MISC_MEM, OP, OP_IMM, STORE, SYSTEM};

// The branch that a funct3 names.
fn branch_op(funct3: u8) -> Option<BranchOp>
    ensures exact { result ≡ branch_op_at funct3 }
    ensures table { IfSome result (λ op. branch_type op ≡ b_type BRANCH funct3) }
{
    match funct3 {
        0b000 => Some(BranchOp::Beq),
        0b001 => Some(BranchOp::Bne),
        0b100 => Some(BranchOp::Blt),
        0b101 => Some(BranchOp::Bge),
        0b110 => Some(BranchOp::Bltu),
        0b111 => Some(BranchOp::Bgeu),
        _ => None,
    }
}

// The load that a funct3 names.
fn load_op(funct3: u8) -> Option<LoadOp>
    ensures exact { result ≡ load_op_at funct3 }
    ensures table { IfSome result (λ op. load_type op ≡ i_type LOAD funct3) }
{
    match funct3 {
        0b000 => Some(LoadOp::Lb),
        0b001 => Some(LoadOp::Lh),
        0b010 => Some(LoadOp::Lw),
        0b100 => Some(LoadOp::Lbu),
        0b101 => Some(LoadOp::Lhu),
        _ => None,
    }
}

// The store that a funct3 names.
fn store_op(funct3: u8) -> Option<StoreOp>
    ensures exact { result ≡ store_op_at funct3 }
    ensures table { IfSome result (λ op. store_type op ≡ s_type STORE funct3) }
{
    match funct3 {
        0b000 => Some(StoreOp::Sb),
        0b001 => Some(StoreOp::Sh),
        0b010 => Some(StoreOp::Sw),
        _ => None,
    }
}

// The operation of a constant of 12 bits that a funct3 names.
fn imm_op(funct3: u8) -> Option<ImmOp>
    ensures exact { result ≡ imm_op_at funct3 }
    ensures table { IfSome result (λ op. imm_type op ≡ i_type OP_IMM funct3) }
    ensures constant { IfSome result (λ op. (imm : ℤ) → IsOfBits 12 imm → IsConstant op imm) }
{
    match funct3 {
        0b000 => Some(ImmOp::Addi),
        0b010 => Some(ImmOp::Slti),
        0b011 => Some(ImmOp::Sltiu),
        0b100 => Some(ImmOp::Xori),
        0b110 => Some(ImmOp::Ori),
        0b111 => Some(ImmOp::Andi),
        _ => None,
    }
}

// The shift by a constant that a funct3 and a funct7 name.
fn shift_op(funct3: u8, funct7: u8) -> Option<ImmOp>
    ensures exact { result ≡ shift_op_at funct3 funct7 }
    ensures table { IfSome result (λ op. imm_type op ≡ shift_type OP_IMM funct3 funct7) }
    ensures constant { IfSome result (λ op. (imm : ℤ) → IsShift imm → IsConstant op imm) }
{
    match (funct3, funct7) {
        (0b001, 0b0000000) => Some(ImmOp::Slli),
        (0b101, 0b0000000) => Some(ImmOp::Srli),
        (0b101, 0b0100000) => Some(ImmOp::Srai),
        _ => None,
    }
}

// The operation that a funct3 names where funct7 is 0000000.
fn base_op(funct3: u8) -> Option<RegOp>
    ensures exact { result ≡ base_op_at funct3 }
    ensures table { IfSome result (λ op. reg_type op ≡ r_type OP funct3 0b0000000) }
{
    match funct3 {
        0b000 => Some(RegOp::Add),
        0b001 => Some(RegOp::Sll),
        0b010 => Some(RegOp::Slt),
        0b011 => Some(RegOp::Sltu),
        0b100 => Some(RegOp::Xor),
        0b101 => Some(RegOp::Srl),
        0b110 => Some(RegOp::Or),
        0b111 => Some(RegOp::And),
        _ => None,
    }
}

// The operation that a funct3 names where funct7 is 0000001.
fn product_op(funct3: u8) -> Option<RegOp>
    ensures exact { result ≡ product_op_at funct3 }
    ensures table { IfSome result (λ op. reg_type op ≡ r_type OP funct3 0b0000001) }
{
    match funct3 {
        0b000 => Some(RegOp::Mul),
        0b001 => Some(RegOp::Mulh),
        0b010 => Some(RegOp::Mulhsu),
        0b011 => Some(RegOp::Mulhu),
        0b100 => Some(RegOp::Div),
        0b101 => Some(RegOp::Divu),
        0b110 => Some(RegOp::Rem),
        0b111 => Some(RegOp::Remu),
        _ => None,
    }
}

// The operation on two registers that a funct3 and a funct7 name.
fn reg_op(funct3: u8, funct7: u8) -> Option<RegOp>
    ensures exact { result ≡ reg_op_at funct3 funct7 }
    ensures table { IfSome result (λ op. reg_type op ≡ r_type OP funct3 funct7) }
{
    match (funct7, funct3) {
        (0b0000000, _) => base_op(funct3),
        (0b0100000, 0b000) => Some(RegOp::Sub),
        (0b0100000, 0b101) => Some(RegOp::Sra),
        (0b0000001, _) => product_op(funct3),
        _ => None,
    }
}

fn branch(f: &Fields) -> Option<Instr>
    requires fit { IsFields f.now }
    requires opcode { f.now.opcode ≡ BRANCH }
    ensures exact { result ≡ decoded f.now }
    ensures found { IsFound f.now result }
{
    let op = branch_op(f.funct3)?;
    Some(Instr::Branch {
        op,
        rs1: f.rs1,
        rs2: f.rs2,
        imm: branch_distance(f),
    })
}

fn load(f: &Fields) -> Option<Instr>
    requires fit { IsFields f.now }
    requires opcode { f.now.opcode ≡ LOAD }
    ensures exact { result ≡ decoded f.now }
    ensures found { IsFound f.now result }
{
    let op = load_op(f.funct3)?;
    Some(Instr::Load {
        op,
        rd: f.rd,
        rs1: f.rs1,
        imm: immediate(f),
    })
}

fn store(f: &Fields) -> Option<Instr>
    requires fit { IsFields f.now }
    requires opcode { f.now.opcode ≡ STORE }
    ensures exact { result ≡ decoded f.now }
    ensures found { IsFound f.now result }
{
    let op = store_op(f.funct3)?;
    Some(Instr::Store {
        op,
        rs1: f.rs1,
        rs2: f.rs2,
        imm: store_offset(f),
    })
}

fn shift_immediate(f: &Fields) -> Option<Instr>
    requires fit { IsFields f.now }
    requires opcode { f.now.opcode ≡ OP_IMM }
    ensures exact { result ≡ decoded_shift f.now }
    ensures found { IsFound f.now result }
{
    let op = shift_op(f.funct3, f.funct7)?;
    Some(Instr::OpImm {
        op,
        rd: f.rd,
        rs1: f.rs1,
        imm: i32::from(f.rs2),
    })
}

fn other_immediate(f: &Fields) -> Option<Instr>
    requires fit { IsFields f.now }
    requires opcode { f.now.opcode ≡ OP_IMM }
    ensures exact { result ≡ decoded_constant f.now }
    ensures found { IsFound f.now result }
{
    let op = imm_op(f.funct3)?;
    Some(Instr::OpImm {
        op,
        rd: f.rd,
        rs1: f.rs1,
        imm: immediate(f),
    })
}

fn op_immediate(f: &Fields) -> Option<Instr>
    requires fit { IsFields f.now }
    requires opcode { f.now.opcode ≡ OP_IMM }
    ensures exact { result ≡ decoded f.now }
    ensures found { IsFound f.now result }
{
    match f.funct3 {
        0b001 | 0b101 => shift_immediate(f),
        _ => other_immediate(f),
    }
}

fn op_register(f: &Fields) -> Option<Instr>
    requires fit { IsFields f.now }
    requires opcode { f.now.opcode ≡ OP }
    ensures exact { result ≡ decoded f.now }
    ensures found { IsFound f.now result }
{
    let op = reg_op(f.funct3, f.funct7)?;
    Some(Instr::Op {
        op,
        rd: f.rd,
        rs1: f.rs1,
        rs2: f.rs2,
    })
}

fn system(f: &Fields) -> Option<Instr>
    requires fit { IsFields f.now }
    requires opcode { f.now.opcode ≡ SYSTEM }
    ensures exact { result ≡ decoded f.now }
    ensures found { IsFound f.now result }
{
    if f.funct3 != 0 || f.funct7 != 0 || f.rd != 0 || f.rs1 != 0 {
        return None;
    }
    match f.rs2 {
        0 => Some(Instr::Ecall),
        1 => Some(Instr::Ebreak),
        _ => None,
    }
}

// The instruction with these fields, if there is one.
fn instruction(f: &Fields) -> Option<Instr>
    requires { IsFields f.now }
    ensures exact { result ≡ decoded f.now }
    ensures found { IsFound f.now result }
{
    match f.opcode {
        LUI => Some(Instr::Lui {
            rd: f.rd,
            imm: upper(f),
        }),
        AUIPC => Some(Instr::Auipc {
            rd: f.rd,
            imm: upper(f),
        }),
        JAL => Some(Instr::Jal {
            rd: f.rd,
            imm: jump_distance(f),
        }),
        JALR if f.funct3 == 0b000 => Some(Instr::Jalr {
            rd: f.rd,
            rs1: f.rs1,
            imm: immediate(f),
        }),
        BRANCH => branch(f),
        LOAD => load(f),
        STORE => store(f),
        OP_IMM => op_immediate(f),
        OP => op_register(f),
        MISC_MEM if f.funct3 == 0b000 => Some(Instr::Fence { rest: rest(f) }),
        SYSTEM => system(f),
        _ => None,
    }
}

/// Answers the instruction of RV32IM that a word stands for, if there is one (RISC-V Unprivileged
/// ISA, "RV32/64G Instruction Set Listings"). FENCE may have any operands; FENCE.I and the CSR
/// instructions are none.
#[tactic(auto, using(crate::proofs::RoundTrip::decode_of_encode_of), unfolding(crate::specs::Decoding::decode_of, crate::specs::Table::encode_of))]
pub fn decode(word: u32) -> Option<Instr>
    ensures exact { result ≡ decode_of word }
    ensures range { IfSome result IsInRange }
    ensures found { IfSome result (λ i. encode_of i ≡ word) }
    ensures none { IfNone result ((i : Instr) → IsInRange i → encode_of i ≢ word) }
{
    instruction(&Fields::split(word))
}
