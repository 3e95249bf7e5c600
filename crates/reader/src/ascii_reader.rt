// The reader of ASCII property lists over any byte source.
ghost use Rattle.std.specs.Prelude.{◌≡◌, ◌≤◌, [], ◌∷◌, take, IfOk};
ghost use Rattle.stream.specs.Events.{text_length_lem};
ghost use Rattle.reader.specs.Comments.{line_comment_lem, block_comment_lem};
ghost use Rattle.reader.specs.Kinds.{error_at};
ghost use Rattle.reader.specs.Meanings.{meaning, Started, Reads, reading_of};
ghost use Rattle.reader.specs.Readings.{reading};
ghost use Rattle.reader.specs.States.{seen, Fetched, Stepped, Ran, text_at, shown, item_at, Fitting, untaken, ends};
ghost use Rattle.reader.specs.Tokens.{potential_comment_lem, begun};
ghost use Rattle.reader.specs.Texts.{added, quoted_byte, utf16_code_unit_lem, second_code_unit_lem, utf16_escape_lem, octal_escape_lem, named, escape, extended, ends_plain_lem, plain, quoted_from, unquoted, quoted};
ghost use Rattle.reader.specs.Fits.{fit_reading, fit_in_state};

use crate::states::{Comment, ErrorKind, State};
use source::sources::ByteSource;
use stream::errors::Error;
use stream::events::Event;
use stream::scratch::{TEXT_BYTES, clear};
use stream::sources::EventSource;
use text::escapes;
use text::escapes::octal_value;
use text::integer::Integer;
use text::nextstep::map_next_step_to_unicode;
use text::utf8::{encode_utf8, is_utf8};
use text::utf16::{decode_utf16, is_surrogate};

// The last position.
const LAST_POSITION: u32 = 16_777_215;

// The byte that begins an escape.
const BACKSLASH: u8 = b'\\';

#[derive(Drop)]
pub struct AsciiReader<S> {
    scanner: Scanner<S>,
    state: State,
}

// What goes over the bytes of a source, once the first of them was fetched.
#[derive(Drop)]
struct Scanner<S> {
    source: S,
    // How many bytes were taken.
    position: u32,
    // The byte behind them, to avoid backtracking, if there is one.
    peeked: Option<u8>,
}

impl<S: ByteSource> AsciiReader<S> {
    pub fn new(source: S) -> AsciiReader<S>
        ensures { meaning S.ByteSource result ≡ reading 0 (S.ByteSource.bytes source) (S.ByteSource.ending source) }
    {
        let scanner = Scanner {
            source,
            position: 0,
            peeked: None,
        };
        AsciiReader {
            scanner,
            state: State::Unfilled,
        }
    }

    // The first call fills the lookahead.
    fn fill(&mut self) -> Result<(), Error>
        ensures { Started S.ByteSource self.old result self.new }
    {
        match self.state {
            State::Unfilled => {
                self.scanner.peeked = self.scanner.read_one()?;
                self.state = State::Filled;
                Ok(())
            }
            State::Filled => Ok(()),
            State::Refused(error) => Err(error),
        }
    }

    // Reads the next event, with its text at the front of `text`, or the end.
    fn read(&mut self, text: &mut [u8; TEXT_BYTES]) -> Result<Option<Event>, Error>
        ensures { Reads (meaning S.ByteSource self.old) result text.new (meaning S.ByteSource self.new) }
    {
        self.fill()?;
        self.scanner.read_next(text)
    }
}

impl<S: ByteSource> EventSource for AsciiReader<S> {
    ghost means = { λ x. meaning S.ByteSource x };

    ghost fit = { λ x.
        let r = x.scanner in
        let v = seen S.ByteSource r in
        let all = S.ByteSource.bytes r.source in
        let end = S.ByteSource.ending r.source in
        fit_in_state x.state (reading r.position all end) (reading_of v) (fit_reading r.position all end) (fit_reading v.position (untaken v) (ends v)) };

    fn next(&mut self, scratch: &mut [u8]) -> Result<Option<Event>, Error> {
        let Some(text) = scratch.first_chunk_mut::<TEXT_BYTES>() else {
            return Err(Error::ShortScratch);
        };
        match self.read(text) {
            Ok(Some(event)) => {
                clear(text, event.text_length());
                Ok(Some(event))
            }
            Ok(None) => {
                clear(text, 0);
                Ok(None)
            }
            Err(error) => {
                self.state = State::Refused(error);
                clear(text, 0);
                Err(error)
            }
        }
    }
}

impl<S: ByteSource> Scanner<S> {
    fn error(&self, kind: ErrorKind) -> Error
        ensures { result ≡ error_at kind self.now.position }
    {
        kind.with_byte_offset(self.position)
    }

    fn read_one(&mut self) -> Result<Option<u8>, Error>
        ensures { Fetched (seen S.ByteSource self.old) result (seen S.ByteSource self.new) }
    {
        self.source
            .next()
            .map_err(|fault| self.error(ErrorKind::Io(fault.code)))
    }

    // A step: takes the lookahead, once the next one is fetched, and answers it.
    fn advance(&mut self) -> Result<Option<u8>, Error>
        ensures { Stepped (seen S.ByteSource self.old) result (seen S.ByteSource self.new) }
    {
        let Some(current) = self.peeked else {
            return Ok(None);
        };
        self.peeked = self.read_one()?;
        if self.position >= LAST_POSITION {
            return Err(self.error(ErrorKind::TooLong));
        }
        self.position += 1;
        Ok(Some(current))
    }

    // Adds a byte to the text of `n` bytes at the front of `text`. These two are no struct: each function that is lent one would
    // have to promise that it still holds the same array. Each function that answers a length says that it fits, since the length ends
    // up in an event as a plain number.
    fn add_byte(&self, text: &mut [u8; TEXT_BYTES], n: usize, byte: u8) -> Result<usize, Error>
        ensures ran { Ran (added (take n text.old) (byte ∷ [])) (seen S.ByteSource self.now) (text_at result text.new) (seen S.ByteSource self.now) }
        ensures fits { IfOk result (λ m. m ≤ 1024) }
    {
        if n >= TEXT_BYTES {
            return Err(self.error(ErrorKind::TextTooLong));
        }
        text[n] = byte;
        Ok(n + 1)
    }

    // Puts the plain token that begins with `first` into `text`, up to the end of input or a byte that ends the token.
    fn unquoted_bytes(&mut self, first: u8, text: &mut [u8; TEXT_BYTES]) -> Result<usize, Error>
        ensures ran { Ran (plain (first ∷ [])) (seen S.ByteSource self.old) (text_at result text.new) (seen S.ByteSource self.new) }
        ensures fits { IfOk result (λ m. m ≤ 1024) }
    {
        text[0] = first;
        let mut n = 1;
        while let Some(c) = self.peeked
            && !ends_plain(c)
        {
            self.advance()?;
            n = self.add_byte(text, n, c)?;
        }
        Ok(n)
    }

    // The plain token that begins with `first`: an Integer if it reads as a number, else a String.
    // An event carries a plain number, so each function that answers one says that it fits: a type for the lengths up to
    // 1,024 would have to be taken out of every event again in `next`.
    fn unquoted_string_literal(
        &mut self,
        first: u8,
        text: &mut [u8; TEXT_BYTES],
    ) -> Result<Event, Error>
        ensures ran { Ran (unquoted first) (seen S.ByteSource self.old) (shown result text.new) (seen S.ByteSource self.new) }
        ensures fits { IfOk result (λ ev. text_length_lem ev ≤ 1024) }
    {
        let n = self.unquoted_bytes(first, text)?;
        if !is_utf8(&text[..n]) {
            return Err(self.error(ErrorKind::InvalidUtf8AsciiStream));
        }
        let number = Integer::from_str(&text[..n]);
        Ok(number.map_or(Event::String(n), Event::Integer))
    }

    // The character of a `\U` escape: a UTF-16 unit, or two that are a pair.
    fn utf16_escape(&mut self) -> Result<char, Error>
        ensures { Ran utf16_escape_lem (seen S.ByteSource self.old) result (seen S.ByteSource self.new) }
    {
        let unit = self.utf16_code_unit()?;
        let second = if is_surrogate(unit) {
            Some(self.second_code_unit()?)
        } else {
            None
        };
        decode_utf16(unit, second).ok_or(self.error(ErrorKind::InvalidUtf16String))
    }

    // The second unit of a pair, in an escape of its own.
    fn second_code_unit(&mut self) -> Result<u16, Error>
        ensures { Ran second_code_unit_lem (seen S.ByteSource self.old) result (seen S.ByteSource self.new) }
    {
        let c = self.advance_quoted_string()?;
        let (b'\\', Some(b'u' | b'U')) = (c, self.peeked) else {
            return Err(self.error(ErrorKind::InvalidUtf16String));
        };
        self.advance_quoted_string()?;
        self.utf16_code_unit()
    }

    // A UTF-16 unit in four hexadecimal digits.
    fn utf16_code_unit(&mut self) -> Result<u16, Error>
        ensures { Ran utf16_code_unit_lem (seen S.ByteSource self.old) result (seen S.ByteSource self.new) }
    {
        let a = self.advance_quoted_string()?;
        let b = self.advance_quoted_string()?;
        let c = self.advance_quoted_string()?;
        let d = self.advance_quoted_string()?;
        escapes::utf16_code_unit([a, b, c, d]).ok_or(self.error(ErrorKind::InvalidUtf16String))
    }

    // A step inside a quoted text, where the end is refused.
    fn advance_quoted_string(&mut self) -> Result<u8, Error>
        ensures { Ran quoted_byte (seen S.ByteSource self.old) result (seen S.ByteSource self.new) }
    {
        self.advance()?.ok_or(self.error(ErrorKind::UnclosedString))
    }

    // The character of three octal digits, the first of which was taken.
    fn octal_escape(&mut self, first: u8) -> Result<char, Error>
        ensures { Ran (octal_escape_lem first) (seen S.ByteSource self.old) result (seen S.ByteSource self.new) }
    {
        let second = self.advance_quoted_string()?;
        let third = self.advance_quoted_string()?;
        octal_value([first, second, third])
            .and_then(|code| char::from_u32(map_next_step_to_unicode(u32::from(code))))
            .ok_or(self.error(ErrorKind::InvalidOctalString))
    }

    // The character that the bytes behind a backslash stand for.
    fn escape(&mut self) -> Result<char, Error>
        ensures { Ran escape (seen S.ByteSource self.old) result (seen S.ByteSource self.new) }
    {
        let c = self.advance_quoted_string()?;
        match c {
            b'0'..=b'7' => self.octal_escape(c),
            b'U' => self.utf16_escape(),
            _ => named_escape(c).ok_or(self.error(ErrorKind::InvalidUtf8AsciiStream)),
        }
    }

    // Adds to the text of `n` bytes at the front of `text` what the byte `c` of a quoted text, which was taken, stands for. Behind a
    // backslash more bytes are taken.
    fn extend(&mut self, text: &mut [u8; TEXT_BYTES], n: usize, c: u8) -> Result<usize, Error>
        ensures ran { Ran (extended (take n text.old) c) (seen S.ByteSource self.old) (text_at result text.new) (seen S.ByteSource self.new) }
        ensures fits { IfOk result (λ m. m ≤ 1024) }
    {
        if c == BACKSLASH {
            let character = self.escape()?;
            let code = u32::from(character);
            return encode_utf8(code, text, n).ok_or(self.error(ErrorKind::TextTooLong));
        }
        self.add_byte(text, n, c)
    }

    // Puts a quoted text into `text`, up to its closing quote, which is taken.
    fn quoted_bytes(&mut self, quote: u8, text: &mut [u8; TEXT_BYTES]) -> Result<usize, Error>
        ensures ran { Ran (quoted_from quote []) (seen S.ByteSource self.old) (text_at result text.new) (seen S.ByteSource self.new) }
        ensures fits { IfOk result (λ m. m ≤ 1024) }
    {
        let mut n = 0;
        loop {
            let c = self.advance_quoted_string()?;
            if c == quote {
                return Ok(n);
            }
            n = self.extend(text, n, c)?;
        }
    }

    fn quoted_string_literal(
        &mut self,
        quote: u8,
        text: &mut [u8; TEXT_BYTES],
    ) -> Result<Event, Error>
        ensures ran { Ran (quoted quote) (seen S.ByteSource self.old) (shown result text.new) (seen S.ByteSource self.new) }
        ensures fits { IfOk result (λ ev. text_length_lem ev ≤ 1024) }
    {
        let length = self.quoted_bytes(quote, text)?;
        if !is_utf8(&text[..length]) {
            return Err(self.error(ErrorKind::InvalidUtf8AsciiStream));
        }
        Ok(Event::String(length))
    }

    // Takes the bytes up to the end of the line, or of the input.
    fn line_comment(&mut self) -> Result<(), Error>
        ensures { Ran line_comment_lem (seen S.ByteSource self.old) result (seen S.ByteSource self.new) }
    {
        while let Some(c) = self.peeked
            && c != b'\n'
        {
            self.advance()?;
        }
        Ok(())
    }

    // Takes a `*`, and then the bytes up to the first `*/` behind it.
    fn block_comment(&mut self) -> Result<(), Error>
        ensures { Ran block_comment_lem (seen S.ByteSource self.old) result (seen S.ByteSource self.new) }
    {
        self.advance()?;
        let mut state = Comment::Plain;
        while let Some(c) = self.advance()? {
            match (state, c) {
                (Comment::Star, b'/') => return Ok(()),
                (_, b'*') => state = Comment::Star,
                _ => state = Comment::Plain,
            }
        }
        Err(self.error(ErrorKind::IncompleteComment))
    }

    // Behind a `/`: None if it began a comment, which is taken, and the event of a plain token if it did not.
    fn potential_comment(&mut self, text: &mut [u8; TEXT_BYTES]) -> Result<Option<Event>, Error>
        ensures ran { Ran potential_comment_lem (seen S.ByteSource self.old) (item_at result text.new) (seen S.ByteSource self.new) }
        ensures fits { Fitting result }
    {
        match self.peeked {
            Some(b'/') => {
                self.line_comment()?;
                Ok(None)
            }
            Some(b'*') => {
                self.block_comment()?;
                Ok(None)
            }
            Some(_) => Ok(Some(self.unquoted_string_literal(b'/', text)?)),
            None => Err(self.error(ErrorKind::IncompleteComment)),
        }
    }

    // What the byte `c` begins: None if it is passed over, with a comment that it opens.
    fn read_item(&mut self, c: u8, text: &mut [u8; TEXT_BYTES]) -> Result<Option<Event>, Error>
        ensures ran { Ran (begun c) (seen S.ByteSource self.old) (item_at result text.new) (seen S.ByteSource self.new) }
        ensures fits { Fitting result }
    {
        match c {
            b'(' => Ok(Some(Event::StartArray(None))),
            b'{' => Ok(Some(Event::StartDictionary(None))),
            b')' | b'}' => Ok(Some(Event::EndCollection)),
            b'\'' | b'"' => Ok(Some(self.quoted_string_literal(c, text)?)),
            b'/' => self.potential_comment(text),
            b' ' | b'\r' | b'\t' | b'\n' | b',' | b';' | b'=' => Ok(None),
            _ => Ok(Some(self.unquoted_string_literal(c, text)?)),
        }
    }

    // Takes bytes until there is an event, with its text at the front of `text`, or the end.
    fn read_next(&mut self, text: &mut [u8; TEXT_BYTES]) -> Result<Option<Event>, Error>
        ensures { Reads (reading_of (seen S.ByteSource self.old)) result text.new (reading_of (seen S.ByteSource self.new)) }
    {
        while let Some(c) = self.advance()? {
            if let Some(event) = self.read_item(c, text)? {
                return Ok(Some(event));
            }
        }
        Ok(None)
    }
}

// Whether a byte ends a plain token.
fn ends_plain(c: u8) -> bool
    ensures { result ≡ ends_plain_lem c }
{
    // One test for most bytes: with `}` in the pattern the loop over a plain token is slower.
    if c > b'=' {
        return c == b'}';
    }
    matches!(c, b' ' | b')' | b'\r' | b'\t' | b';' | b',' | b'\n' | b'=')
}

// The character that a letter, a quote or a backslash stands for behind a backslash.
fn named_escape(c: u8) -> Option<char>
    ensures { result ≡ named c }
{
    match c {
        b'\\' | b'"' | b'\'' => Some(char::from(c)),
        b'a' => Some('\u{07}'),
        b'b' => Some('\u{08}'),
        b'f' => Some('\u{0C}'),
        b'n' => Some('\n'),
        b'r' => Some('\r'),
        b't' => Some('\t'),
        b'v' => Some('\u{0B}'),
        _ => None,
    }
}
