//! The rules of platform files.

ghost use Rattle.std.specs.Prelude.{◌≡◌, ◌≤◌, length};
ghost use Rattle.platform_model.specs.Words.{platform_rule_text};

use soc_base::NoMemory;
use thiserror::Error;

/// A rule of platform files. A rule speaks of files that keep all rules before it. The limits are
/// `soc_base`'s.
#[derive(Clone, Copy, Debug, PartialEq, Eq, Error)]
pub enum PRule {
    /// The file is a TOML document of at most `MOST_FILE_BYTES` bytes.
    #[error("the platform file is no TOML document")]
    P1,
    /// Each key is one that platform files have.
    #[error("a key that platform files don't have")]
    P2,
    /// Each required key is there, and each key has its type.
    #[error("a key is missing or has another type")]
    P3,
    /// `tiles` is from 1 to `MOST_TILES`.
    #[error("tiles is out of range")]
    P4,
    /// `mem_bytes` is a multiple of 16, from `LEAST_MEMORY` to `MOST_MEMORY`.
    #[error("mem_bytes is out of range")]
    P5,
    /// `slot_cycles` is from 1 to `MOST_SLOT_CYCLES`, and `table_slots` to `MOST_TABLE_SLOTS`.
    #[error("slot_cycles or table_slots is out of range")]
    P6,
    /// `kernel_cycles` is from `LEAST_KERNEL_CYCLES` to `MOST_KERNEL_CYCLES`, `partition_cycles` from
    /// 1 to `MOST_PARTITION_CYCLES` and `partition_slots` from 1 to `MOST_PARTITION_SLOTS`.
    #[error("the frame's times are out of range")]
    P7,
    /// `ports` is from 0 to `MOST_PORTS` and `queue` from 1 to `MOST_QUEUE`.
    #[error("ports or queue is out of range")]
    P8,
    /// There are at most `MOST_LINKS` links, and each joins two different tiles.
    #[error("there are too many links, or one joins no two tiles")]
    P9,
    /// A link's `out` and `input` are below `ROUTER_PORTS`.
    #[error("a link's out or input is out of range")]
    P10,
    /// No two links have the same `from` and `out`, or the same `to` and `input`.
    #[error("two links share a port of a router")]
    P11,
    /// Each cost is from 1 to `MOST_COST`.
    #[error("a cost is out of range")]
    P12,
}

impl PRule {
    /// Answers the rule's word, as it is printed: `P4`.
    pub fn word(self) -> &'static str
        ensures text { result.now ≡ platform_rule_text self }
        ensures short { length result.now ≤ 3 }
    {
        match self {
            PRule::P1 => "P1",
            PRule::P2 => "P2",
            PRule::P3 => "P3",
            PRule::P4 => "P4",
            PRule::P5 => "P5",
            PRule::P6 => "P6",
            PRule::P7 => "P7",
            PRule::P8 => "P8",
            PRule::P9 => "P9",
            PRule::P10 => "P10",
            PRule::P11 => "P11",
            PRule::P12 => "P12",
        }
    }
}

/// Why there is no platform.
#[derive(Clone, Copy, Debug, PartialEq, Eq, Error)]
pub enum PlatformFault {
    /// This rule is broken, and none before it.
    #[error("the platform file breaks a rule")]
    Rule(PRule),
    /// Memory was wanted and not had.
    #[error("no memory")]
    NoMemory,
}

impl From<NoMemory> for PlatformFault {
    ghost use Rattle.std.specs.Prelude.{◌≡◌};
    ghost use Rattle.platform_model.specs.declared.rules.PlatformFault.TheVariants.{NoMemory as Unheld};

    ghost from_gives = { λ _ fault. fault ≡ Unheld };

    fn from(_none: NoMemory) -> PlatformFault {
        PlatformFault::NoMemory
    }
}
