// Bytes written in hexadecimal.
ghost use Rattle.std.specs.Prelude.{◌≡◌, ◌<◌, ◌≤◌, length, IfOk, Some, vec_items};
ghost use Rattle.std.specs.Option.{option_map};
ghost use Rattle.text.specs.Digits.{digit_of};
ghost use Rattle.report.specs.declared.hex.TheConstants.{BLOCK};
ghost use Rattle.report.specs.Hex.{hex_digit as hex_digit_of, hex, byte_of, from_hex, from_word, ReadsBack};

use std::alloc::{AllocError, Global};
use std::{fmt, str};
use text::digits::digit;

// How many bytes are written at a time.
const BLOCK: usize = 64;

fn hex_digit(n: u8) -> u8
    requires { n < 16 }
    ensures { result ≡ hex_digit_of n }
{
    if n < 10 { b'0' + n } else { b'a' + (n - 10) }
}

// Two digits for each byte, as a text in a lent block.
fn hex_text<'a>(bytes: &[u8], block: &'a mut [u8; 2 * BLOCK]) -> &'a str
    requires { length bytes.now ≤ BLOCK }
    ensures { result.now ≡ hex bytes.now }
{
    for (i, &b) in bytes.iter().enumerate() {
        block[2 * i] = hex_digit(b / 16);
        block[2 * i + 1] = hex_digit(b % 16);
    }
    str::from_utf8(&block[..2 * bytes.len()]).unwrap()
}

// Prints two digits for each byte.
#[derive(Clone, Copy)]
pub struct Hex<'a>(pub &'a [u8]);

// By blocks: a `write!` for each byte takes several times as long.
impl fmt::Display for Hex<'_> {
    ghost output = { λ x. Some (hex x.0.now) };

    fn fmt<W: fmt::Write>(&self, f: &mut fmt::Formatter<W>) -> fmt::Result {
        for part in self.0.chunks(BLOCK) {
            f.write_str(hex_text(part, &mut [0; 2 * BLOCK]))?;
        }
        Ok(())
    }
}

// The byte of two hexadecimal digits.
fn byte(high: u8, low: u8) -> Option<u8>
    ensures { result ≡ byte_of (digit_of 16 high) (digit_of 16 low) }
{
    let high = digit(high, 16)?;
    let low = digit(low, 16)?;
    Some((high * 16 + low) as u8)
}

// The bytes that a text of hexadecimal digits writes, two digits a byte; none of any other text. (None, and no error enum: there is one
// reason, and each caller has its own words for it.)
pub fn parse_hex(heap: Global, text: &[u8]) -> Result<Option<Vec<u8>>, AllocError>
    ensures { IfOk result (λ bytes. option_map vec_items bytes ≡ from_hex text.now) }
{
    let mut bytes = Vec::new(heap);
    let mut rest = text;
    while let [high, low, behind @ ..] = rest {
        let Some(b) = byte(*high, *low) else {
            return Ok(None);
        };
        bytes.push(b)?;
        rest = behind;
    }
    Ok(rest.is_empty().then_some(bytes))
}

// The bytes that a word of a script writes: `-` for no bytes, else hexadecimal digits. (None inside Ok, as at `parse_hex`.)
pub fn parse_bytes(heap: Global, word: &[u8]) -> Result<Option<Vec<u8>>, AllocError>
    ensures { IfOk result (λ bytes. option_map vec_items bytes ≡ from_word word.now) }
{
    match word {
        [] => Ok(None),
        b"-" => Ok(Some(Vec::new(heap))),
        _ => parse_hex(heap, word),
    }
}

// What is written is read back.
pub fn hex_reads_back()
    ensures { ReadsBack }
{}
