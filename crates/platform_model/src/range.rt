//! Tests of raw numbers.

ghost use Rattle.std.specs.Prelude.{◌≡◌, pos, ◌<ℤ◌};
ghost use Rattle.platform_model.specs.Limits.{is_within, is_multiple};

/// Answers whether a number lies from `least` to `greatest`, both included.
pub fn is_between(number: i64, least: i64, greatest: i64) -> bool
    ensures { result ≡ is_within number least greatest }
{
    least <= number && number <= greatest
}

/// Answers whether a positive unit divides a number.
pub fn divides(unit: i64, number: i64) -> bool
    requires { pos 0 <ℤ unit }
    ensures { result ≡ is_multiple number unit }
{
    number % unit == 0
}
