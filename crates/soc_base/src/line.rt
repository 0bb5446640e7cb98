//! Lines of printed text, made piece by piece with no memory taken.

ghost use Rattle.std.specs.Prelude.{◌≡◌, ◌+◌, ◌<◌, ◌≤◌, [], ◌∷◌, ◌++◌, decimal};
ghost use Rattle.arrayvec.specs.ArrayString.{array_string_len};
ghost use Rattle.soc_base.specs.Text.{hex_digit, hex_text};

use arrayvec::ArrayString;
use itoa::Buffer;

/// A line of at most 512 bytes.
pub type Line = ArrayString<512>;

/// Appends a number in decimal, without leading zeros: 1 to 20 digits.
pub fn push_number(line: &mut Line, value: u64)
    requires { array_string_len line.old + 20 ≤ 512 }
    ensures text { line.new.bytes ≡ line.old.bytes ++ decimal value }
    ensures len { array_string_len line.new ≤ array_string_len line.old + 20 }
{
    let mut buffer = Buffer::new();
    line.push_str(buffer.format(value));
}

// The text of one hexadecimal digit, which is below 16.
fn digit_text(digit: u32) -> &'static str
    requires { digit < 16 }
    ensures text { result.now ≡ hex_digit digit ∷ [] }
{
    match digit {
        0 => "0",
        1 => "1",
        2 => "2",
        3 => "3",
        4 => "4",
        5 => "5",
        6 => "6",
        7 => "7",
        8 => "8",
        9 => "9",
        10 => "a",
        11 => "b",
        12 => "c",
        13 => "d",
        14 => "e",
        _ => "f",
    }
}

/// Appends a word as eight lower-case hexadecimal digits.
#[tactic(auto, unfolding(crate::specs::Text::hex_text))]
pub fn push_hex(line: &mut Line, value: u32)
    requires { array_string_len line.old + 8 ≤ 512 }
    ensures text { line.new.bytes ≡ line.old.bytes ++ hex_text value }
    ensures len { array_string_len line.new ≡ array_string_len line.old + 8 }
{
    line.push_str(digit_text((value >> 28) % 16));
    line.push_str(digit_text((value >> 24) % 16));
    line.push_str(digit_text((value >> 20) % 16));
    line.push_str(digit_text((value >> 16) % 16));
    line.push_str(digit_text((value >> 12) % 16));
    line.push_str(digit_text((value >> 8) % 16));
    line.push_str(digit_text((value >> 4) % 16));
    line.push_str(digit_text(value % 16));
}

#[cfg(test)]
mod tests {
    use super::*;

    #[test]
    fn writes_numbers(rt: HostRuntime) {
        let decimals = [
            (0, "0"),
            (10, "10"),
            (4_294_967_296, "4294967296"),
            (u64::MAX, "18446744073709551615"),
        ];
        for (value, text) in decimals {
            let mut line = Line::new();
            push_number(&mut line, value);
            assert_eq!(rt; line.as_str(), text);
        }
        let words = [
            (0, "00000000"),
            (u32::MAX, "ffffffff"),
            (0x80c3_2686, "80c32686"),
            (0x0123_4567, "01234567"),
            (0x89ab_cdef, "89abcdef"),
        ];
        for (value, text) in words {
            let mut line = Line::new();
            push_hex(&mut line, value);
            assert_eq!(rt; line.as_str(), text);
        }
        let mut line = Line::new();
        push_number(&mut line, 7);
        push_hex(&mut line, 0xa);
        assert_eq!(rt; line.as_str(), "70000000a");
    }
}
