//! The instructions of RV32IM, by their kinds of operands.

/// An instruction. `rd` is the register that it writes and `rs1` and `rs2` those that it reads, each
/// from 0 to 31.
#[derive(Clone, Copy, Debug, PartialEq, Eq)]
pub enum Instr {
    /// LUI: loads a constant.
    Lui {
        /// The register that is written.
        rd: u8,
        /// The constant, whose low 12 bits are 0.
        imm: u32,
    },
    /// AUIPC: adds a constant to pc.
    Auipc {
        /// The register that is written.
        rd: u8,
        /// The constant, whose low 12 bits are 0.
        imm: u32,
    },
    /// JAL: jumps by a distance, and links.
    Jal {
        /// The register that takes the return address.
        rd: u8,
        /// The distance from pc in bytes: even, from -1048576 to 1048574.
        imm: i32,
    },
    /// JALR: jumps to an address in a register, and links.
    Jalr {
        /// The register that takes the return address.
        rd: u8,
        /// The register that holds the address.
        rs1: u8,
        /// What is added to the address, from -2048 to 2047.
        imm: i32,
    },
    /// A conditional branch.
    Branch {
        /// The condition.
        op: BranchOp,
        /// The left side of the condition.
        rs1: u8,
        /// The right side of the condition.
        rs2: u8,
        /// The distance from pc in bytes: even, from -4096 to 4094.
        imm: i32,
    },
    /// A load from memory.
    Load {
        /// What is loaded.
        op: LoadOp,
        /// The register that is written.
        rd: u8,
        /// The register that holds the address.
        rs1: u8,
        /// What is added to the address, from -2048 to 2047.
        imm: i32,
    },
    /// A store to memory.
    Store {
        /// What is stored.
        op: StoreOp,
        /// The register that holds the address.
        rs1: u8,
        /// The register that holds the value.
        rs2: u8,
        /// What is added to the address, from -2048 to 2047.
        imm: i32,
    },
    /// An operation on a register and a constant.
    OpImm {
        /// The operation.
        op: ImmOp,
        /// The register that is written.
        rd: u8,
        /// The left operand.
        rs1: u8,
        /// The right operand: from 0 to 31 at the shifts, else from -2048 to 2047.
        imm: i32,
    },
    /// An operation on two registers.
    Op {
        /// The operation.
        op: RegOp,
        /// The register that is written.
        rd: u8,
        /// The left operand.
        rs1: u8,
        /// The right operand.
        rs2: u8,
    },
    /// FENCE, which orders nothing here.
    Fence {
        /// The instruction's word with 0 in place of its opcode and funct3.
        rest: u32,
    },
    /// ECALL: ends the program.
    Ecall,
    /// EBREAK: a breakpoint.
    Ebreak,
}

/// The condition of a branch.
#[derive(Clone, Copy, Debug, PartialEq, Eq)]
pub enum BranchOp {
    /// Equal.
    Beq,
    /// Not equal.
    Bne,
    /// Less, as signed numbers.
    Blt,
    /// Greater or equal, as signed numbers.
    Bge,
    /// Less, as unsigned numbers.
    Bltu,
    /// Greater or equal, as unsigned numbers.
    Bgeu,
}

/// What a load loads.
#[derive(Clone, Copy, Debug, PartialEq, Eq)]
pub enum LoadOp {
    /// A byte, sign-extended.
    Lb,
    /// Two bytes, sign-extended.
    Lh,
    /// Four bytes.
    Lw,
    /// A byte, zero-extended.
    Lbu,
    /// Two bytes, zero-extended.
    Lhu,
}

/// What a store stores.
#[derive(Clone, Copy, Debug, PartialEq, Eq)]
pub enum StoreOp {
    /// The low byte.
    Sb,
    /// The low two bytes.
    Sh,
    /// All four bytes.
    Sw,
}

/// An operation on a register and a constant.
#[derive(Clone, Copy, Debug, PartialEq, Eq)]
pub enum ImmOp {
    /// The sum.
    Addi,
    /// 1 if less, as signed numbers, else 0.
    Slti,
    /// 1 if less, as unsigned numbers, else 0.
    Sltiu,
    /// Bitwise exclusive or.
    Xori,
    /// Bitwise or.
    Ori,
    /// Bitwise and.
    Andi,
    /// A shift to the left.
    Slli,
    /// A shift to the right that brings in zeros.
    Srli,
    /// A shift to the right that brings in copies of the sign.
    Srai,
}

/// An operation on two registers.
#[derive(Clone, Copy, Debug, PartialEq, Eq)]
pub enum RegOp {
    /// The sum.
    Add,
    /// The difference.
    Sub,
    /// A shift to the left.
    Sll,
    /// 1 if less, as signed numbers, else 0.
    Slt,
    /// 1 if less, as unsigned numbers, else 0.
    Sltu,
    /// Bitwise exclusive or.
    Xor,
    /// A shift to the right that brings in zeros.
    Srl,
    /// A shift to the right that brings in copies of the sign.
    Sra,
    /// Bitwise or.
    Or,
    /// Bitwise and.
    And,
    /// The low word of the product.
    Mul,
    /// The high word of the product of signed numbers.
    Mulh,
    /// The high word of the product of a signed and an unsigned number.
    Mulhsu,
    /// The high word of the product of unsigned numbers.
    Mulhu,
    /// The quotient of signed numbers.
    Div,
    /// The quotient of unsigned numbers.
    Divu,
    /// The remainder of signed numbers.
    Rem,
    /// The remainder of unsigned numbers.
    Remu,
}
