//! The rules of bundle files.

ghost use Rattle.std.specs.Prelude.{◌≡◌, ◌≤◌, length};
ghost use Rattle.bundle_model.specs.Words.{bundle_rule_text};

use soc_base::NoMemory;
use thiserror::Error;

/// A rule of bundle files. A rule speaks of files that keep all rules before it, and is judged
/// over the whole file. The limits are `soc_base`'s.
#[derive(Clone, Copy, Debug, PartialEq, Eq, Error)]
pub enum BRule {
    /// The file is a TOML document of at most `MOST_FILE_BYTES` bytes.
    #[error("the bundle file is no TOML document")]
    B1,
    /// Each key is one that bundle files have.
    #[error("a key that bundle files don't have")]
    B2,
    /// Each required key is there, and each key has its type.
    #[error("a key is missing or has another type")]
    B3,
    /// `version` is 1.
    #[error("the version is unknown")]
    B4,
    /// There is a part, and the parts stand on different tiles of the platform.
    #[error("there is no part, or its tile is missing or taken")]
    B5,
    /// A part's `slots` are partition slots of the platform, ascending, and at least one.
    #[error("a part's slots are no ascending partition slots")]
    B6,
    /// A part's region lies in the tile's memory, and its `base` and `len` are multiples of 16.
    #[error("a part's region is none of the memory")]
    B7,
    /// A part's `image` is hexadecimal text of whole words, and fits its region.
    #[error("a part's image is no text of words that fit")]
    B8,
    /// A part's `entry` is the address of a word of its region.
    #[error("a part's entry is no word of its region")]
    B9,
    /// A part's `trace` is from 0 to `MOST_ROWS`, and its `kinds` are different kinds of rows.
    #[error("a part's trace or kinds are out of range")]
    B10,
    /// Ports and channel pairs fit together.
    #[error("ports and pairs don't fit together")]
    B11,
    /// A channel's path leads along links of the platform from its one tile to its other, and its
    /// slots are slots of the tables, ascending, and at least one.
    #[error("a channel's path leads nowhere, or its slots are no ascending slots of the tables")]
    B12,
    /// No resource stands twice in the bundle's list.
    #[error("a resource is held twice")]
    B13,
    /// The bundle's list has at most `MOST_RESOURCES` resources.
    #[error("the bundle holds too many resources")]
    B14,
}

impl BRule {
    /// Answers the rule's word, as it is printed: `B7`.
    pub fn word(self) -> &'static str
        ensures text { result.now ≡ bundle_rule_text self }
        ensures short { length result.now ≤ 3 }
    {
        match self {
            BRule::B1 => "B1",
            BRule::B2 => "B2",
            BRule::B3 => "B3",
            BRule::B4 => "B4",
            BRule::B5 => "B5",
            BRule::B6 => "B6",
            BRule::B7 => "B7",
            BRule::B8 => "B8",
            BRule::B9 => "B9",
            BRule::B10 => "B10",
            BRule::B11 => "B11",
            BRule::B12 => "B12",
            BRule::B13 => "B13",
            BRule::B14 => "B14",
        }
    }
}

/// Why there is no bundle.
#[derive(Clone, Copy, Debug, PartialEq, Eq, Error)]
pub enum BundleFault {
    /// This rule is broken, and none before it.
    #[error("the bundle file breaks a rule")]
    Rule(BRule),
    /// Memory was wanted and not had.
    #[error("no memory")]
    NoMemory,
}

impl From<NoMemory> for BundleFault {
    ghost use Rattle.std.specs.Prelude.{◌≡◌};
    ghost use Rattle.bundle_model.specs.declared.rules.BundleFault.TheVariants.{NoMemory as Unheld};

    ghost from_gives = { λ _ fault. fault ≡ Unheld };

    fn from(_none: NoMemory) -> BundleFault {
        BundleFault::NoMemory
    }
}
