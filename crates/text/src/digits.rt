// Digits of a base up to 16, and the numbers that they write.
ghost use Rattle.std.specs.Prelude.{◌≡◌, ◌<◌, IfSome};
ghost use Rattle.text.specs.Digits.{digit_of, numeral};
ghost use Rattle.text.specs.Numbers.{fitting};

// What a byte counts as a digit of the base, if it is one. (`char::to_digit` takes letters past `f` too, and asks for
// a base from 2 to 36.)
pub fn digit(byte: u8, base: u64) -> Option<u64>
    ensures value { result ≡ digit_of base byte }
    ensures bound { IfSome result (λ d. d < base) }
{
    let value = u64::from(match byte {
        b'0'..=b'9' => byte - b'0',
        b'a'..=b'f' => byte - b'a' + 10,
        b'A'..=b'F' => byte - b'A' + 10,
        _ => 16,
    });
    (value < base).then_some(value)
}

// The value of one or more digits of the base, if it fits. (`u64::from_str_radix` takes a `+` in front.)
pub(crate) fn magnitude(digits: &[u8], base: u64) -> Option<u64>
    requires { 0 < base }
    ensures { result ≡ fitting (numeral base digits.now) }
{
    if digits.is_empty() {
        return None;
    }
    let mut n: u64 = 0;
    for &byte in digits {
        let value = digit(byte, base)?;
        n = n.checked_mul(base)?.checked_add(value)?;
    }
    Some(n)
}
