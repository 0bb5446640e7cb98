//! The rules of scripts.

ghost use Rattle.std.specs.Prelude.{◌≡◌, ◌≤◌, length};
ghost use Rattle.script_file.specs.Words.{script_rule_text};

use thiserror::Error;

/// The most bytes of a bundle file's name in a script.
pub const MOST_NAME_BYTES: usize = 200;

/// A rule that each line of a script keeps.
#[derive(Clone, Copy, Debug, PartialEq, Eq, Error)]
pub enum SRule {
    /// The line has the shape of a command, with its key words in lower case: `load NAME at CYCLE`,
    /// `stop J at CYCLE` or `until CYCLE`.
    #[error("a line has the shape of no command")]
    S1,
    /// NAME has at most 200 bytes, each a letter or a digit of ASCII, `.`, `_`, `-` or `/`.
    #[error("a name is too long or has a byte that names don't have")]
    S2,
    /// CYCLE is decimal digits, with a value of at most 1,000,000,000,000, and J is decimal digits,
    /// with a value from 1 to 256.
    #[error("a number is no decimal digits or out of range")]
    S3,
}

impl SRule {
    /// Answers the word of the rule, as refusals print it: `S1` to `S3`.
    pub fn word(self) -> &'static str
        ensures text { result.now ≡ script_rule_text self }
        ensures short { length result.now ≤ 2 }
    {
        match self {
            SRule::S1 => "S1",
            SRule::S2 => "S2",
            SRule::S3 => "S3",
        }
    }
}

/// Why there is no script.
#[derive(Clone, Copy, Debug, PartialEq, Eq, Error)]
pub enum ScriptFault {
    /// The first line that breaks a rule, counted from 1, and the least rule that it breaks.
    #[error("a line breaks a rule")]
    Line(u32, SRule),
    /// No line breaks a rule, and there are more commands than there is room for.
    #[error("there are too many commands")]
    TooMany,
    /// Memory was wanted and not had.
    #[error("no memory")]
    NoMemory,
}
