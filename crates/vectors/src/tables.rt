// Rows of the published tables, compared with what the library answers.
ghost use Rattle.std.specs.Prelude.{◌≤◌};

use anyhow::anyhow;
use std::alloc::Global;
use std::num::ParseIntError;
use text::nextstep::map_next_step_to_unicode;
use text::utf8::{encode_utf8, is_utf8};
use text::utf16::{decode_utf16, is_surrogate};

// A hexadecimal number behind `0x`.
fn prefixed(text: &str) -> anyhow::Result<u32> {
    let digits = text
        .strip_prefix("0x")
        .ok_or(anyhow!("a number without 0x"))?;
    Ok(u32::from_str_radix(digits, 16)?)
}

// Numbers with blanks between, each as `number` reads it.
fn numbers<T, F>(heap: Global, text: &str, number: F) -> anyhow::Result<Vec<T>>
where
    T: Drop,
    F: Fn(&str) -> Result<T, ParseIntError>,
    requires { F.IsAlwaysCallable number }
{
    let mut all = Vec::new(heap);
    for word in text.split(' ') {
        all.push(number(word)?)?;
    }
    Ok(all)
}

// Hexadecimal code points with blanks between.
fn code_points(heap: Global, text: &str) -> anyhow::Result<Vec<u32>> {
    numbers(heap, text, |word| u32::from_str_radix(word, 16))
}

// Whether the bytes are the code points' UTF-8, which `encode_utf8` writes into lent bytes.
fn encode_to(points: &[u32], bytes: &[u8]) -> bool {
    let mut out = [0u8; 64];
    let mut end = 0;
    for point in points {
        let Some(next) = encode_utf8(*point, &mut out, end) else {
            return false;
        };
        end = next;
    }
    &out[..end] == bytes
}

// Whether the units decode to the code points.
fn decode_to(units: &[u16], points: &[u32]) -> bool {
    let mut rest = units;
    for point in points {
        let (decoded, left) = match rest {
            [first, second, left @ ..] if is_surrogate(*first) => (
                decode_utf16(*first, Some(*second)),
                left,
            ),
            [first, left @ ..] => (decode_utf16(*first, None), left),
            [] => return false,
        };
        if decoded.map(u32::from) != Some(*point) {
            return false;
        }
        rest = left;
    }
    rest.is_empty()
}

// A byte of the NEXTSTEP encoding, and its code point.
pub fn same_character(byte: &str, point: &str) -> anyhow::Result<bool> {
    Ok(map_next_step_to_unicode(prefixed(byte)?) == prefixed(point)?)
}

// Code points and their UTF-8, or `-` and bytes that are none.
pub fn same_utf8(heap: Global, points: &str, bytes: &str) -> anyhow::Result<bool> {
    let bytes = numbers(heap, bytes, |word| u8::from_str_radix(word, 16))?;
    if points == "-" {
        return Ok(!is_utf8(bytes.as_slice()));
    }
    let points = code_points(heap, points)?;
    Ok(is_utf8(bytes.as_slice()) && encode_to(points.as_slice(), bytes.as_slice()))
}

// Code points and their UTF-16.
pub fn same_units(heap: Global, points: &str, units: &str) -> anyhow::Result<bool> {
    let points = code_points(heap, points)?;
    let units = numbers(heap, units, |word| u16::from_str_radix(word, 16))?;
    Ok(decode_to(units.as_slice(), points.as_slice()))
}
