//! Rows of a trace, their kinds, and the ends of parts.

ghost use Rattle.std.specs.Prelude.{◌≡◌, ◌<◌, length};

use soc_base::Cause;

/// What a row tells of.
#[derive(Clone, Copy, Debug, PartialEq, Eq)]
pub enum Kind {
    /// A word that the part stored to its TRACE register.
    Word,
    /// A word that the part put into a port's send queue.
    Send,
    /// A word that the part took from a port's receive queue.
    Recv,
    /// The address of an instruction that the part completed.
    Step,
}

impl Kind {
    ghost use Rattle.trace_log.specs.Kinds.{kind_text, phase_of, has_kind};

    /// Answers the kind's word, as it stands in files and in traces.
    pub fn word(self) -> &'static str
        ensures text { result.now ≡ kind_text self }
        ensures short { length result.now ≡ 4 }
    {
        match self {
            Kind::Word => "word",
            Kind::Send => "send",
            Kind::Recv => "recv",
            Kind::Step => "step",
        }
    }

    /// Answers the phase of the kind, from 0 to 3: rows of one cycle and tile stand in order of their
    /// phases, and the kinds that a part names are the bits of a set by phase.
    pub fn phase(self) -> u8
        ensures value { result ≡ phase_of self }
        ensures few { result < 4 }
    {
        match self {
            Kind::Word => 0,
            Kind::Send => 1,
            Kind::Recv => 2,
            Kind::Step => 3,
        }
    }

    /// Answers whether a set of kinds, one bit a phase, has this kind.
    pub fn is_in(self, kinds: u8) -> bool
        ensures { result ≡ has_kind kinds self }
    {
        (kinds >> self.phase()) % 2 == 1
    }
}

/// One row of a trace.
#[derive(Clone, Copy, Debug, PartialEq, Eq)]
pub struct TraceRow {
    /// The cycle in which the instruction had its effect.
    pub cycle: u64,
    /// The word, or the address of the instruction.
    pub value: u32,
    /// The tile of the part.
    pub tile: u8,
    /// What the row tells of.
    pub kind: Kind,
}

/// How a part stands.
#[derive(Clone, Copy, Debug, PartialEq, Eq)]
pub enum PartEnd {
    /// It has not ended.
    Live,
    /// It ended by ECALL.
    Halt {
        /// The value of x10.
        code: u32,
        /// The cycle of the ECALL's effect.
        cycle: u64,
    },
    /// It ended by a fault.
    Fault {
        /// Why.
        cause: Cause,
        /// The cycle of the fault.
        cycle: u64,
    },
}

impl PartEnd {
    ghost use Rattle.trace_log.specs.Log.{has_ended};

    /// Answers whether the part has ended.
    pub fn has_ended(self) -> bool
        ensures { result ≡ has_ended self }
    {
        match self {
            PartEnd::Live => false,
            PartEnd::Halt { .. } | PartEnd::Fault { .. } => true,
        }
    }
}
