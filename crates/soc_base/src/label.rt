//! The name of one load command.

/// The name of a load: its session, and its number among that session's load commands. Both are
/// counted from 1, and it is printed as `2.1`.
#[derive(Clone, Copy, Debug, PartialEq, Eq)]
pub struct Label {
    /// The session, from 1 to 16.
    pub session: u8,
    /// The number of the load command in its session's script, from 1 to 256.
    pub load: u16,
}
