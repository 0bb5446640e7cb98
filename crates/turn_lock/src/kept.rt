//! What a lock keeps.

ghost use Rattle.std.specs.Prelude.{◌≡◌, List, length};

/// A value with a history, which a lock keeps: what never changes of it is its base, and its entries only
/// become more.
pub trait Kept {
    /// What never changes. No value of it is made.
    type Base;
    /// One entry of the history. No value of it is made.
    type Entry;

    /// What of a value never changes.
    ghost base: { Self → Self.Base };

    /// The entries of a value's history, the oldest first.
    ghost entries: { Self → List Self.Entry };

    /// Answers how many entries the history has.
    fn count(&self) -> u64
        ensures { result ≡ length (entries self.now) };
}
