//! Why a part ended by a fault.

/// Why a part of an application ended by a fault.
#[derive(Clone, Copy, Debug, PartialEq, Eq)]
pub enum Cause {
    /// The word at pc is no instruction of RV32IM as the emulator executes it.
    Illegal,
    /// pc and the three bytes after it aren't all in the part's region.
    Fetch,
    /// A taken jump or branch leads to an address that isn't a multiple of 4 (RISC-V
    /// Unprivileged ISA, "Control Transfer Instructions").
    Target,
    /// The address of a load or a store isn't a multiple of its width.
    Align,
    /// The bytes of a load or a store aren't all in the region, and no device register is loaded or
    /// stored so.
    Access,
    /// EBREAK.
    Break,
}
