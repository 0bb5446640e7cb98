//! The fields of an instruction's word (RISC-V Unprivileged ISA, "Base Instruction Formats").

ghost use Rattle.std.specs.Prelude.{◌≡◌};
ghost use Rattle.rv_core.specs.Formats.{fields_at, pack, IsFields};

/// The fields of a word, named as in the format R.
#[derive(Clone, Copy)]
pub(crate) struct Fields {
    /// Bits 6 to 0.
    pub opcode: u8,
    /// Bits 11 to 7.
    pub rd: u8,
    /// Bits 14 to 12.
    pub funct3: u8,
    /// Bits 19 to 15.
    pub rs1: u8,
    /// Bits 24 to 20.
    pub rs2: u8,
    /// Bits 31 to 25.
    pub funct7: u8,
}

impl Fields {
    /// Splits a word.
    pub(crate) fn split(word: u32) -> Fields
        ensures fields { result ≡ fields_at word }
        ensures fit { IsFields result }
        ensures whole { pack result ≡ word }
    {
        Fields {
            opcode: (word % 128) as u8,
            rd: ((word >> 7) % 32) as u8,
            funct3: ((word >> 12) % 8) as u8,
            rs1: ((word >> 15) % 32) as u8,
            rs2: ((word >> 20) % 32) as u8,
            funct7: ((word >> 25) % 128) as u8,
        }
    }

    /// Joins fields, each of which fits its place, to a word.
    pub(crate) fn join(self) -> u32
        requires { IsFields self }
        ensures word { result ≡ pack self }
        ensures back { fields_at result ≡ self }
    {
        u32::from(self.opcode)
            + (u32::from(self.rd) << 7)
            + (u32::from(self.funct3) << 12)
            + (u32::from(self.rs1) << 15)
            + (u32::from(self.rs2) << 20)
            + (u32::from(self.funct7) << 25)
    }
}
