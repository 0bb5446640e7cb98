//! The fields of an instruction, by its format (RISC-V Unprivileged ISA, "Base Instruction Formats").
//! An immediate is taken apart as its word.

ghost use Rattle.std.specs.Prelude.{◌≡◌, ◌<◌, ◌^◌};
ghost use Rattle.rv_core.specs.Formats.{i_type, s_type, b_type, u_type, j_type, fence_type, shift_type, IsFields};
ghost use Rattle.rv_core.specs.Table.{IsShift, IsRegister};

use crate::fields::Fields;

/// Makes the fields of format I.
pub(crate) fn format_i(opcode: u8, funct3: u8, rd: u8, rs1: u8, imm: i32) -> Fields
    requires opcode { opcode < 2 ^ 7 }
    requires funct3 { funct3 < 2 ^ 3 }
    requires registers { IsRegister rd × IsRegister rs1 }
    ensures fields { result ≡ i_type opcode funct3 rd rs1 imm }
    ensures fit { IsFields result }
{
    let word = imm.cast_unsigned();
    Fields {
        opcode,
        rd,
        funct3,
        rs1,
        rs2: (word % 32) as u8,
        funct7: ((word >> 5) % 128) as u8,
    }
}

/// Makes the fields of a shift by a constant.
pub(crate) fn format_shift(opcode: u8, funct3: u8, funct7: u8, rd: u8, rs1: u8, imm: i32) -> Fields
    requires opcode { opcode < 2 ^ 7 }
    requires functs { (funct3 < 2 ^ 3) × (funct7 < 2 ^ 7) }
    requires registers { IsRegister rd × IsRegister rs1 }
    requires constant { IsShift imm }
    ensures fields { result ≡ shift_type opcode funct3 funct7 rd rs1 imm }
    ensures fit { IsFields result }
{
    Fields {
        opcode,
        rd,
        funct3,
        rs1,
        rs2: imm.cast_unsigned() as u8,
        funct7,
    }
}

/// Makes the fields of format S.
pub(crate) fn format_s(opcode: u8, funct3: u8, rs1: u8, rs2: u8, imm: i32) -> Fields
    requires opcode { opcode < 2 ^ 7 }
    requires funct3 { funct3 < 2 ^ 3 }
    requires registers { IsRegister rs1 × IsRegister rs2 }
    ensures fields { result ≡ s_type opcode funct3 rs1 rs2 imm }
    ensures fit { IsFields result }
{
    let word = imm.cast_unsigned();
    Fields {
        opcode,
        rd: (word % 32) as u8,
        funct3,
        rs1,
        rs2,
        funct7: ((word >> 5) % 128) as u8,
    }
}

/// Makes the fields of format B.
pub(crate) fn format_b(opcode: u8, funct3: u8, rs1: u8, rs2: u8, imm: i32) -> Fields
    requires opcode { opcode < 2 ^ 7 }
    requires funct3 { funct3 < 2 ^ 3 }
    requires registers { IsRegister rs1 × IsRegister rs2 }
    ensures fields { result ≡ b_type opcode funct3 rs1 rs2 imm }
    ensures fit { IsFields result }
{
    let word = imm.cast_unsigned();
    Fields {
        opcode,
        rd: ((word >> 1) % 16 * 2 + (word >> 11) % 2) as u8,
        funct3,
        rs1,
        rs2,
        funct7: ((word >> 12) % 2 * 64 + (word >> 5) % 64) as u8,
    }
}

/// Makes the fields of format U.
pub(crate) fn format_u(opcode: u8, rd: u8, imm: u32) -> Fields
    requires opcode { opcode < 2 ^ 7 }
    requires register { IsRegister rd }
    ensures fields { result ≡ u_type opcode rd imm }
    ensures fit { IsFields result }
{
    Fields {
        opcode,
        rd,
        funct3: ((imm >> 12) % 8) as u8,
        rs1: ((imm >> 15) % 32) as u8,
        rs2: ((imm >> 20) % 32) as u8,
        funct7: ((imm >> 25) % 128) as u8,
    }
}

/// Makes the fields of format J.
pub(crate) fn format_j(opcode: u8, rd: u8, imm: i32) -> Fields
    requires opcode { opcode < 2 ^ 7 }
    requires register { IsRegister rd }
    ensures fields { result ≡ j_type opcode rd imm }
    ensures fit { IsFields result }
{
    let word = imm.cast_unsigned();
    Fields {
        opcode,
        rd,
        funct3: ((word >> 12) % 8) as u8,
        rs1: ((word >> 15) % 32) as u8,
        rs2: ((word >> 1) % 16 * 2 + (word >> 11) % 2) as u8,
        funct7: ((word >> 20) % 2 * 64 + (word >> 5) % 64) as u8,
    }
}

/// Makes the fields of a FENCE.
pub(crate) fn format_fence(opcode: u8, funct3: u8, rest: u32) -> Fields
    requires opcode { opcode < 2 ^ 7 }
    requires funct3 { funct3 < 2 ^ 3 }
    ensures fields { result ≡ fence_type opcode funct3 rest }
    ensures fit { IsFields result }
{
    Fields {
        opcode,
        rd: ((rest >> 7) % 32) as u8,
        funct3,
        rs1: ((rest >> 15) % 32) as u8,
        rs2: ((rest >> 20) % 32) as u8,
        funct7: ((rest >> 25) % 128) as u8,
    }
}
