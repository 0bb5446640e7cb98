//! Words and their instructions, laid beside each other by LLVM's assembler.

use crate::decoding::decode;
use crate::encoding::encode;
use crate::instr::{BranchOp, ImmOp, Instr, LoadOp, RegOp, StoreOp};
use std::process::Abort;

fn lui(rd: u8, imm: u32) -> Instr {
    Instr::Lui { rd, imm }
}

fn auipc(rd: u8, imm: u32) -> Instr {
    Instr::Auipc { rd, imm }
}

fn jal(rd: u8, imm: i32) -> Instr {
    Instr::Jal { rd, imm }
}

fn jalr(rd: u8, rs1: u8, imm: i32) -> Instr {
    Instr::Jalr { rd, rs1, imm }
}

fn branch(op: BranchOp, rs1: u8, rs2: u8, imm: i32) -> Instr {
    Instr::Branch { op, rs1, rs2, imm }
}

fn load(op: LoadOp, rd: u8, rs1: u8, imm: i32) -> Instr {
    Instr::Load { op, rd, rs1, imm }
}

fn store(op: StoreOp, rs1: u8, rs2: u8, imm: i32) -> Instr {
    Instr::Store { op, rs1, rs2, imm }
}

fn op_imm(op: ImmOp, rd: u8, rs1: u8, imm: i32) -> Instr {
    Instr::OpImm { op, rd, rs1, imm }
}

fn op(op: RegOp, rd: u8, rs1: u8, rs2: u8) -> Instr {
    Instr::Op { op, rd, rs1, rs2 }
}

fn fence(rest: u32) -> Instr {
    Instr::Fence { rest }
}

// Checks that each word stands for its instruction, and the other way round.
fn check_words<A: Abort>(rt: &A, cases: &[(u32, Instr)]) {
    for (word, instr) in cases {
        let found = decode(*word);
        assert_eq!(rt; found, Some(*instr), "the word {word:08x}");
        if let Some(found) = found {
            assert_eq!(rt; encode(found), *word, "{instr:?}");
        }
    }
}

#[test]
fn words_with_immediates(rt: HostRuntime) {
    let cases = [
        (0x0070_0293, op_imm(ImmOp::Addi, 5, 0, 7)),
        (0x8000_0337, lui(6, 0x8000_0000)),
        (0x0640_0293, op_imm(ImmOp::Addi, 5, 0, 100)),
        (0xfe02_9ce3, branch(BranchOp::Bne, 5, 0, -8)),
        (0xffff_ff97, auipc(31, 0xffff_f000)),
        (0x0000_1fb7, lui(31, 0x0000_1000)),
        (0x8000_00ef, jal(1, -1048576)),
        (0x7fff_f06f, jal(0, 1048574)),
        (0x0010_0fef, jal(31, 2048)),
        (0x8001_00e7, jalr(1, 2, -2048)),
        (0x7ff0_8067, jalr(0, 1, 2047)),
        (0x8020_8063, branch(BranchOp::Beq, 1, 2, -4096)),
        (0x7e41_9fe3, branch(BranchOp::Bne, 3, 4, 4094)),
        (0x0062_c0e3, branch(BranchOp::Blt, 5, 6, 2048)),
        (0x0083_df63, branch(BranchOp::Bge, 7, 8, 30)),
        (0xfea4_efe3, branch(BranchOp::Bltu, 9, 10, -2)),
        (0xffef_ff63, branch(BranchOp::Bgeu, 31, 30, -2050)),
        (0x8001_0093, op_imm(ImmOp::Addi, 1, 2, -2048)),
        (0x7ff2_2193, op_imm(ImmOp::Slti, 3, 4, 2047)),
        (0xfff3_3293, op_imm(ImmOp::Sltiu, 5, 6, -1)),
        (0x5554_4393, op_imm(ImmOp::Xori, 7, 8, 1365)),
        (0xaaa5_6493, op_imm(ImmOp::Ori, 9, 10, -1366)),
        (0x01f6_7593, op_imm(ImmOp::Andi, 11, 12, 31)),
        (0x0001_1093, op_imm(ImmOp::Slli, 1, 2, 0)),
        (0x01f2_1193, op_imm(ImmOp::Slli, 3, 4, 31)),
        (0x01f3_5293, op_imm(ImmOp::Srli, 5, 6, 31)),
        (0x41f4_5393, op_imm(ImmOp::Srai, 7, 8, 31)),
    ];
    check_words(&rt, &cases);
}

#[test]
fn words_with_registers(rt: HostRuntime) {
    let cases = [
        (0x0053_2023, store(StoreOp::Sw, 6, 5, 0)),
        (0x0000_0073, Instr::Ecall),
        (0x0272_c433, op(RegOp::Div, 8, 5, 7)),
        (0x1043_2383, load(LoadOp::Lw, 7, 6, 260)),
        (0x0010_0073, Instr::Ebreak),
        (0xfff1_0083, load(LoadOp::Lb, 1, 2, -1)),
        (0x8002_1183, load(LoadOp::Lh, 3, 4, -2048)),
        (0x7ff3_2283, load(LoadOp::Lw, 5, 6, 2047)),
        (0x01f4_4383, load(LoadOp::Lbu, 7, 8, 31)),
        (0x0205_5483, load(LoadOp::Lhu, 9, 10, 32)),
        (0xfe11_0fa3, store(StoreOp::Sb, 2, 1, -1)),
        (0x8032_1023, store(StoreOp::Sh, 4, 3, -2048)),
        (0x7e53_2fa3, store(StoreOp::Sw, 6, 5, 2047)),
        (0x0053_2fa3, store(StoreOp::Sw, 6, 5, 31)),
        (0x0031_00b3, op(RegOp::Add, 1, 2, 3)),
        (0x4062_8233, op(RegOp::Sub, 4, 5, 6)),
        (0x0094_13b3, op(RegOp::Sll, 7, 8, 9)),
        (0x00c5_a533, op(RegOp::Slt, 10, 11, 12)),
        (0x00f7_36b3, op(RegOp::Sltu, 13, 14, 15)),
        (0x0128_c833, op(RegOp::Xor, 16, 17, 18)),
        (0x015a_59b3, op(RegOp::Srl, 19, 20, 21)),
        (0x418b_db33, op(RegOp::Sra, 22, 23, 24)),
        (0x01bd_6cb3, op(RegOp::Or, 25, 26, 27)),
        (0x01ee_fe33, op(RegOp::And, 28, 29, 30)),
        (0x0231_00b3, op(RegOp::Mul, 1, 2, 3)),
        (0x0262_9233, op(RegOp::Mulh, 4, 5, 6)),
        (0x0294_23b3, op(RegOp::Mulhsu, 7, 8, 9)),
        (0x02c5_b533, op(RegOp::Mulhu, 10, 11, 12)),
        (0x02f7_46b3, op(RegOp::Div, 13, 14, 15)),
        (0x0328_d833, op(RegOp::Divu, 16, 17, 18)),
        (0x035a_69b3, op(RegOp::Rem, 19, 20, 21)),
        (0x03fb_fb33, op(RegOp::Remu, 22, 23, 31)),
        (0x0ff0_000f, fence(0x0ff0_0000)),
        (0x8330_000f, fence(0x8330_0000)),
        (0xffff_8f8f, fence(0xffff_8f80)),
    ];
    check_words(&rt, &cases);
}

#[test]
fn words_of_no_instruction(rt: HostRuntime) {
    let words = [
        0x0000_0000, // all zeros
        0xffff_ffff, // all ones
        0x0000_100f, // fence.i
        0x3000_2573, // csrrs x10, mstatus, x0
        0x0000_00f3, // ecall with rd 1
        0x0000_8073, // ecall with rs1 1
        0x0020_0073, // uret
        0x1050_0073, // wfi
        0x4000_1013, // slli with funct7 0100000
        0x0200_1013, // slli by 32
        0x2000_5013, // srli with funct7 0010000
        0x0000_3003, // ld
        0x0000_6003, // lwu
        0x0000_7003, // a load with funct3 111
        0x0000_3023, // sd
        0x0000_2063, // a branch with funct3 010
        0x0000_3063, // a branch with funct3 011
        0x0000_1067, // jalr with funct3 001
        0x4000_7033, // and with funct7 0100000
        0x0400_0033, // add with funct7 0000010
        0x0000_0001, // c.nop
        0x0000_003b, // addw
        0x1000_202f, // lr.w
    ];
    for word in words {
        assert_eq!(rt; decode(word), None, "the word {word:08x}");
    }
}
