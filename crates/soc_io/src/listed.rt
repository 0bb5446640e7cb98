//! Numbers of calls that fail.

ghost use Rattle.std.specs.Prelude.{◌≡◌};
ghost use Rattle.soc_base.specs.Time.{is_among};

/// Answers whether a call's number stands in a list.
pub fn is_listed(fails: &[u64], call: u64) -> bool
    ensures { result ≡ is_among call fails.now }
{
    fails.iter().any(|fail| *fail == call)
}
