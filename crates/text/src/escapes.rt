// The digits of escapes: four hexadecimal ones, and three octal ones.
#![tactic(auto, using(crate::proofs::Numerals::fitting_short, crate::proofs::Numerals::numeral_below))]

ghost use Rattle.std.specs.Prelude.{◌≡◌};
ghost use Rattle.text.specs.Digits.{numeral};

use crate::digits::magnitude;

// The UTF-16 unit that four hexadecimal digits write, in either case of the letters. No sign is a digit.
pub fn utf16_code_unit(digits: [u8; 4]) -> Option<u16>
    ensures { result ≡ numeral 16 digits }
{
    u16::try_from(magnitude(&digits, 16)?).ok()
}

// The number, up to 511, that three octal digits write.
pub fn octal_value(digits: [u8; 3]) -> Option<u16>
    ensures { result ≡ numeral 8 digits }
{
    u16::try_from(magnitude(&digits, 8)?).ok()
}

#[cfg(test)]
mod tests {
    use super::*;

    #[test]
    fn digits_alone(rt: HostRuntime) {
        for (digits, unit) in [
            (*b"0041", Some(0x41)),
            (*b"dCa9", Some(0xDCA9)),
            (*b"+041", None),
            (*b"004 ", None),
        ] {
            assert_eq!(rt; utf16_code_unit(digits), unit);
        }
        for (digits, value) in [
            (*b"256", Some(0o256)),
            (*b"777", Some(511)),
            (*b"28\"", None),
            (*b"1+2", None),
        ] {
            assert_eq!(rt; octal_value(digits), value);
        }
    }
}
