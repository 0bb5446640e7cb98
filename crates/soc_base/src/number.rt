//! Numbers read from text.

ghost use Rattle.std.specs.Prelude.{◌≡◌, position};
ghost use Rattle.soc_base.specs.Text.{number_read, number_within, value_of, is_no_digit};

use thiserror::Error;

/// Why a text is no number within its limit.
#[derive(Clone, Copy, Debug, PartialEq, Eq, Error)]
pub enum NumFault {
    /// There is no byte.
    #[error("a number is expected")]
    Empty,
    /// The first byte that is no decimal digit stands at this place, counted from 0.
    #[error("a byte is no decimal digit")]
    Digit(usize),
    /// The value is above the limit.
    #[error("the number is too large")]
    Large,
}

// The place of the first byte that is no decimal digit.
fn first_other(bytes: &[u8]) -> Option<usize>
    ensures { result ≡ position is_no_digit bytes.now }
{
    bytes.iter().position(|byte| *byte < b'0' || b'9' < *byte)
}

// The value of digits, where it is at most the limit.
#[tactic(auto, using(crate::proofs::Digits::large_front))]
fn value_within(digits: &[u8], limit: u64) -> Option<u64>
    ensures { result ≡ number_within (value_of digits.now) limit }
{
    let mut value: u128 = 0;
    for digit in digits {
        value = value * 10 + u128::from(digit.saturating_sub(b'0'));
        if value > u128::from(limit) {
            return None;
        }
    }
    Some(value as u64)
}

/// Reads decimal digits, with leading zeros accepted, as a number of at most `limit`. Refuses in
/// this order: no byte, the first byte that is no digit, a value above the limit.
pub fn read_number(bytes: &[u8], limit: u64) -> Result<u64, NumFault>
    ensures { result ≡ number_read bytes.now limit }
{
    if bytes.is_empty() {
        return Err(NumFault::Empty);
    }
    if let Some(place) = first_other(bytes) {
        return Err(NumFault::Digit(place));
    }
    match value_within(bytes, limit) {
        Some(value) => Ok(value),
        None => Err(NumFault::Large),
    }
}

#[cfg(test)]
mod tests {
    use super::*;

    #[test]
    fn reads_numbers_within_a_limit(rt: HostRuntime) {
        let cases: [(&[u8], u64, Result<u64, NumFault>); 16] = [
            (b"", 9, Err(NumFault::Empty)),
            (b"0", 0, Ok(0)),
            (b"1", 0, Err(NumFault::Large)),
            (b"296", 296, Ok(296)),
            (b"297", 296, Err(NumFault::Large)),
            (b"00000000000000000000000000042", 42, Ok(42)),
            (b"000", 0, Ok(0)),
            (b"-5", 9, Err(NumFault::Digit(0))),
            (b"12a", 999, Err(NumFault::Digit(2))),
            (b"/", 999, Err(NumFault::Digit(0))),
            (b":", 999, Err(NumFault::Digit(0))),
            (b"99x", 5, Err(NumFault::Digit(2))),
            (b"18446744073709551615", u64::MAX, Ok(u64::MAX)),
            (b"18446744073709551616", u64::MAX, Err(NumFault::Large)),
            (b"100000000000000000000", u64::MAX, Err(NumFault::Large)),
            (b"1000000000000", 1_000_000_000_000, Ok(1_000_000_000_000)),
        ];
        for (bytes, limit, want) in cases {
            assert_eq!(rt; read_number(bytes, limit), want, "of {bytes:?}");
        }
    }
}
