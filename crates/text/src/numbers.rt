// Number syntax: decimal digits with an optional sign, or hexadecimal digits behind `0x`.
ghost use Rattle.std.specs.Prelude.{◌≡◌, ◌<◌, pos, Some};
ghost use Rattle.std.specs.Option.{option_map};
ghost use Rattle.text.specs.Notation.{Notation};
ghost use Rattle.text.specs.Digits.{numeral};
ghost use Rattle.text.specs.Numbers.{decimal, minus, number, numbered, ranged};
ghost use Rattle.text.specs.Samples.{Samples};

use crate::digits::magnitude;
use crate::integer::Integer;

impl Integer {
    /// The number that the bytes write, if they are one.
    #[tactic(auto, using(crate::proofs::Prefixes::written_hexadecimal, crate::proofs::Prefixes::decimal_minus, crate::proofs::Prefixes::decimal_plus), unfolding(crate::specs::Numbers::number))]
    pub fn from_str(bytes: &[u8]) -> Option<Integer>
        ensures { numbered result ≡ number bytes.now }
    {
        match bytes {
            [b'0', b'x', digits @ ..] => unsigned(digits, 16),
            [b'-', digits @ ..] => negative(digits),
            [b'+', digits @ ..] => unsigned(digits, 10),
            _ => unsigned(bytes, 10),
        }
    }
}

/// The number that digits of the base write.
fn unsigned(digits: &[u8], base: u64) -> Option<Integer>
    requires { 0 < base }
    ensures { numbered result ≡ ranged (option_map pos (numeral base digits.now)) }
{
    Some(Integer::from(magnitude(digits, base)?))
}

/// The number that decimal digits write behind a `-`.
fn negative(digits: &[u8]) -> Option<Integer>
    ensures { numbered result ≡ ranged (option_map minus (numeral 10 digits.now)) }
{
    let n = magnitude(digits, 10)?;
    Some(Integer::from(0i64.checked_sub_unsigned(n)?))
}

/// Number syntax as a relation between bytes and integers, and that a displayed Integer is read back.
pub fn notation_stands()
    ensures { Notation }
{}

/// Sample numbers, computed from the definition.
#[tactic(auto, unfolding(crate::specs::Numbers::number))]
pub fn samples_stand()
    ensures { Samples }
{}

#[cfg(test)]
mod tests {
    use super::*;

    #[test]
    fn no_numbers(rt: HostRuntime) {
        for text in [
            "",
            "+",
            "-",
            "+-1",
            "--1",
            "1 ",
            " 1",
            "1.5",
            "1a",
            "0x",
            "0xg",
            "0X1",
            "0x0x10",
            "0x+1",
            "-0x1",
            "+0x1",
            "-9223372036854775809",
            "18446744073709551616",
            "99999999999999999999",
            "0x10000000000000000",
        ] {
            assert_eq!(rt; Integer::from_str(text.as_bytes()), None, "{}", text);
        }
    }

    #[test]
    fn limits(rt: HostRuntime) {
        assert_eq!(rt;
            Integer::from_str(b"-9223372036854775808"),
            Some(Integer::from(i64::MIN))
        );
        assert_eq!(rt;
            Integer::from_str(b"9223372036854775808"),
            Some(Integer::from(1u64 << 63))
        );
        assert_eq!(rt;
            Integer::from_str(b"+18446744073709551615"),
            Some(Integer::from(u64::MAX))
        );
        assert_eq!(rt;
            Integer::from_str(b"0xfFffffffffffffff"),
            Some(Integer::from(u64::MAX))
        );
        assert_eq!(rt; Integer::from_str(b"-0"), Some(Integer::from(0u64)));
        let mut text = [b'0'; 1024];
        text[1023] = b'7';
        assert_eq!(rt; Integer::from_str(&text), Some(Integer::from(7u64)));
        text[0] = b'1';
        assert_eq!(rt; Integer::from_str(&text), None);
    }
}
