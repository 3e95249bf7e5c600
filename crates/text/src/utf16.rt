// UTF-16 by RFC 2781: from units to scalar values.
ghost use Rattle.std.specs.Prelude.{◌≡◌};
ghost use Rattle.text.specs.Utf16.{surrogate, decode, Utf16Agrees};

// Whether the unit is one half of a pair.
pub fn is_surrogate(unit: u16) -> bool
    ensures { result ≡ surrogate unit }
{
    matches!(unit, 0xD800..=0xDFFF)
}

// The character of one unit that is no surrogate, or of a high surrogate and a low one. (By a rule of the project UTF-16 is
// written out; `char::decode_utf16` goes over a row of units.)
pub fn decode_utf16(first: u16, second: Option<u16>) -> Option<char>
    ensures { result ≡ decode first second }
{
    match (first, second) {
        (0xD800..=0xDBFF, Some(low @ 0xDC00..=0xDFFF)) => char::from_u32(
            (u32::from(first) - 0xD800) * 0x400 + (u32::from(low) - 0xDC00) + 0x1_0000,
        ),
        (0xD800..=0xDFFF, _) | (_, Some(_)) => None,
        (unit, None) => char::from_u32(u32::from(unit)),
    }
}

// Units decode to a scalar value exactly where they encode it.
pub fn utf16_agrees()
    ensures { Utf16Agrees }
{}
