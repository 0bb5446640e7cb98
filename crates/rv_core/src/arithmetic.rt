//! What the instructions compute, on words of 32 bits (RISC-V Unprivileged ISA, "Integer
//! Computational Instructions", "Multiplication Operations", "Division Operations").

ghost use Rattle.std.specs.Prelude.{◌≡◌, ◌<◌, ◌^◌, ◌*◌, ◌/◌, ◌*ℤ◌};
ghost use Rattle.std.specs.Int.{w64, cast_unsigned};
ghost use Rattle.rv_core.specs.Arithmetic.{shifted_left, shifted_right, shifted_right_signed, high_product_mixed, quotient_signed, quotient_unsigned, remainder_signed, remainder_unsigned, reg_value, imm_value, is_taken, loaded_value, stored_value};
ghost use Rattle.soc_base.specs.Widths.{width_bytes};
ghost use Rattle.rv_core.specs.Access.{load_width, store_width};

use crate::instr::{BranchOp, ImmOp, LoadOp, RegOp, StoreOp};
use soc_base::Width;

// A shift to the left by the low five bits of `b`.
fn left(a: u32, b: u32) -> u32
    ensures { result ≡ shifted_left a b }
{
    a << (b % 32)
}

// A shift to the right by the low five bits of `b`.
fn right(a: u32, b: u32) -> u32
    ensures { result ≡ shifted_right a b }
{
    a >> (b % 32)
}

// A shift to the right by the low five bits of `b`, which brings in copies of the sign.
fn right_signed(a: u32, b: u32) -> u32
    ensures { result ≡ shifted_right_signed a b }
{
    (a.cast_signed() >> (b % 32)).cast_unsigned()
}

// The high word of a product.
fn high_word(product: i64) -> u32
    ensures { result ≡ cast_unsigned w64 product / 2 ^ 32 }
{
    (product.cast_unsigned() >> 32) as u32
}

// The high word of the product of two signed numbers.
fn high_signed(a: i32, b: i32) -> u32
    ensures { result ≡ cast_unsigned w64 (a *ℤ b) / 2 ^ 32 }
{
    high_word(i64::from(a) * i64::from(b))
}

// The high word of the product of a signed and an unsigned number.
fn high_mixed(a: u32, b: u32) -> u32
    ensures { result ≡ high_product_mixed a b }
{
    high_word(i64::from(a.cast_signed()) * i64::from(b))
}

// The quotient of signed numbers.
fn divided_signed(a: u32, b: u32) -> u32
    ensures { result ≡ quotient_signed a b }
{
    if b == 0 {
        return u32::MAX;
    }
    a.cast_signed()
        .wrapping_div(b.cast_signed())
        .cast_unsigned()
}

// The quotient of unsigned numbers.
fn divided(a: u32, b: u32) -> u32
    ensures { result ≡ quotient_unsigned a b }
{
    if b == 0 { u32::MAX } else { a / b }
}

// The remainder of signed numbers.
fn left_over_signed(a: u32, b: u32) -> u32
    ensures { result ≡ remainder_signed a b }
{
    if b == 0 {
        return a;
    }
    a.cast_signed()
        .wrapping_rem(b.cast_signed())
        .cast_unsigned()
}

// The remainder of unsigned numbers.
fn left_over(a: u32, b: u32) -> u32
    ensures { result ≡ remainder_unsigned a b }
{
    if b == 0 { a } else { a % b }
}

/// Computes an operation on two registers' values.
pub(crate) fn register_result(op: RegOp, a: u32, b: u32) -> u32
    ensures { result ≡ reg_value op a b }
{
    match op {
        RegOp::Add => a.wrapping_add(b),
        RegOp::Sub => a.wrapping_sub(b),
        RegOp::Sll => left(a, b),
        RegOp::Slt => u32::from(a.cast_signed() < b.cast_signed()),
        RegOp::Sltu => u32::from(a < b),
        RegOp::Xor => a ^ b,
        RegOp::Srl => right(a, b),
        RegOp::Sra => right_signed(a, b),
        RegOp::Or => a | b,
        RegOp::And => a & b,
        RegOp::Mul => a.wrapping_mul(b),
        RegOp::Mulh => high_signed(a.cast_signed(), b.cast_signed()),
        RegOp::Mulhsu => high_mixed(a, b),
        RegOp::Mulhu => ((u64::from(a) * u64::from(b)) >> 32) as u32,
        RegOp::Div => divided_signed(a, b),
        RegOp::Divu => divided(a, b),
        RegOp::Rem => left_over_signed(a, b),
        RegOp::Remu => left_over(a, b),
    }
}

/// Computes an operation on a register's value and a constant, given as its word.
pub(crate) fn immediate_result(op: ImmOp, a: u32, b: u32) -> u32
    ensures { result ≡ imm_value op a b }
{
    match op {
        ImmOp::Addi => a.wrapping_add(b),
        ImmOp::Slti => u32::from(a.cast_signed() < b.cast_signed()),
        ImmOp::Sltiu => u32::from(a < b),
        ImmOp::Xori => a ^ b,
        ImmOp::Ori => a | b,
        ImmOp::Andi => a & b,
        ImmOp::Slli => left(a, b),
        ImmOp::Srli => right(a, b),
        ImmOp::Srai => right_signed(a, b),
    }
}

impl BranchOp {
    /// Answers whether the branch is taken, where its registers hold `a` and `b`.
    pub fn is_taken(self, a: u32, b: u32) -> bool
        ensures { result ≡ is_taken self a b }
    {
        match self {
            BranchOp::Beq => a == b,
            BranchOp::Bne => a != b,
            BranchOp::Blt => a.cast_signed() < b.cast_signed(),
            BranchOp::Bge => a.cast_signed() >= b.cast_signed(),
            BranchOp::Bltu => a < b,
            BranchOp::Bgeu => a >= b,
        }
    }
}

/// Answers how much a load reads.
pub(crate) fn width_of_load(op: LoadOp) -> Width
    ensures { result ≡ load_width op }
{
    match op {
        LoadOp::Lb | LoadOp::Lbu => Width::Byte,
        LoadOp::Lh | LoadOp::Lhu => Width::Half,
        LoadOp::Lw => Width::Word,
    }
}

/// Answers how much a store writes.
pub(crate) fn width_of_store(op: StoreOp) -> Width
    ensures { result ≡ store_width op }
{
    match op {
        StoreOp::Sb => Width::Byte,
        StoreOp::Sh => Width::Half,
        StoreOp::Sw => Width::Word,
    }
}

/// Answers the part of a register's value that a store writes.
pub(crate) fn stored(op: StoreOp, value: u32) -> u32
    ensures { result ≡ stored_value op value }
{
    match op {
        StoreOp::Sb => value % 0x100,
        StoreOp::Sh => value % 0x1_0000,
        StoreOp::Sw => value,
    }
}

/// Answers what a load gives for the value that it reads, which is within the load's width.
pub(crate) fn extended(op: LoadOp, value: u32) -> u32
    requires { value < 2 ^ (8 * width_bytes (load_width op)) }
    ensures { result ≡ loaded_value op value }
{
    match op {
        LoadOp::Lb => i32::from((value as u8).cast_signed()).cast_unsigned(),
        LoadOp::Lh => i32::from((value as u16).cast_signed()).cast_unsigned(),
        LoadOp::Lw | LoadOp::Lbu | LoadOp::Lhu => value,
    }
}
