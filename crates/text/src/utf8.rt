// UTF-8 by RFC 3629: whether bytes are UTF-8, and the bytes of a scalar value.
ghost use Rattle.std.specs.Prelude.{◌≡◌, ◌-◌, ◌≤◌, false, ◌∷◌, length, drop, IfSome, IfNone};
ghost use Rattle.text.specs.Utf8.{utf8, Utf8Agrees, Utf8Laws, Written};

// What follows the character that begins with `lead`, if the bytes behind it go on with that character. (`str::from_utf8`
// tests the same, but by a rule of the project UTF-8 is written out, row by row as RFC 3629 has it.)
#[tactic(auto, using(crate::proofs::Rows::rest_2, crate::proofs::Rows::rest_3, crate::proofs::Rows::rest_4, crate::proofs::Texts::utf8_ascii))]
fn after_char(lead: u8, behind: &[u8]) -> Option<&[u8]>
    ensures rest { IfSome result (λ rest. utf8 rest.now ≡ utf8 (lead ∷ behind.now)) }
    ensures end { IfSome result (λ rest. rest.now ≡ drop (length behind.now - length rest.now) behind.now) }
    ensures shorter { IfSome result (λ rest. length rest.now ≤ length behind.now) }
    ensures none { IfNone result (utf8 (lead ∷ behind.now) ≡ false) }
{
    match (lead, behind) {
        (0x00..=0x7F, rest) => Some(rest),
        (0xC2..=0xDF, [0x80..=0xBF, rest @ ..]) => Some(rest),
        (0xE0, [0xA0..=0xBF, 0x80..=0xBF, rest @ ..]) => Some(rest),
        (0xE1..=0xEC | 0xEE..=0xEF, [0x80..=0xBF, 0x80..=0xBF, rest @ ..]) => Some(rest),
        (0xED, [0x80..=0x9F, 0x80..=0xBF, rest @ ..]) => Some(rest),
        (0xF0, [0x90..=0xBF, 0x80..=0xBF, 0x80..=0xBF, rest @ ..]) => Some(rest),
        (0xF1..=0xF3, [0x80..=0xBF, 0x80..=0xBF, 0x80..=0xBF, rest @ ..]) => Some(rest),
        (0xF4, [0x80..=0x8F, 0x80..=0xBF, 0x80..=0xBF, rest @ ..]) => Some(rest),
        _ => None,
    }
}

// Whether the bytes are UTF-8.
#[tactic(auto, using(crate::proofs::Rows::ascii_at, crate::proofs::Rows::ends_at))]
pub fn is_utf8(bytes: &[u8]) -> bool
    ensures { result ≡ utf8 bytes.now }
{
    // By an index: with a slice that is cut shorter byte by byte, ASCII takes half as long again.
    let mut at = 0;
    while at < bytes.len() {
        // Most bytes are ASCII: they need no more than this test.
        if bytes[at] < 0x80 {
            at += 1;
            continue;
        }
        let Some(rest) = after_char(bytes[at], &bytes[at + 1..]) else {
            return false;
        };
        at = bytes.len() - rest.len();
    }
    true
}

// Writes the UTF-8 of a scalar value into `out` from `start` on, and answers where it ends. Where the code is no
// scalar value, or its bytes do not fit, the answer is None and nothing is written.
pub fn encode_utf8(code: u32, out: &mut [u8], start: usize) -> Option<usize>
    ensures { Written code start out.old result out.new }
{
    // Most characters are ASCII: through the library's encoding they take a third longer.
    if code < 0x80 {
        if start >= out.len() {
            return None;
        }
        out[start] = code as u8;
        return Some(start + 1);
    }
    // By a buffer and a test: the contracts of `char::encode_utf8` and `get_mut` do not say what their slice then holds.
    let mut buffer = [0; 4];
    let bytes = char::from_u32(code)?.encode_utf8(&mut buffer).as_bytes();
    let end = start.checked_add(bytes.len())?;
    if out.len() < end {
        return None;
    }
    out[start..end].copy_from_slice(bytes);
    Some(end)
}

// The syntax, the test, the encoding and the standard library's predicate say the same, and texts of UTF-8 are
// put together from UTF-8.
pub fn utf8_agrees()
    ensures agrees { Utf8Agrees }
    ensures laws { Utf8Laws }
{}

#[cfg(test)]
mod tests {
    use super::*;

    #[test]
    fn a_refusal_writes_nothing(rt: HostRuntime) {
        for (code, start) in [
            (0xD800, 0),
            (0xDFFF, 0),
            (0x11_0000, 0),
            (0x10_FFFF, 1),
            (0x41, 5),
        ] {
            let mut out = [7u8; 4];
            assert_eq!(rt; encode_utf8(code, &mut out, start), None);
            assert_eq!(rt; out, [7; 4]);
        }
        let mut out = [7u8; 4];
        assert_eq!(rt; encode_utf8(0x20AC, &mut out, 1), Some(4));
        assert_eq!(rt; out, [7, 0xE2, 0x82, 0xAC]);
    }
}
