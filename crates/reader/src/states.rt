// What the reader keeps between its steps, and what it can refuse.
ghost use Rattle.std.specs.Prelude.{◌≡◌};
ghost use Rattle.reader.specs.Kinds.{error_at};

use stream::errors::Error;

// How far a reader is. Only the first call asks the source for its first byte, and the first refusal is then repeated.
#[derive(Clone, Copy)]
pub enum State {
    Unfilled,
    Filled,
    Refused(Error),
}

// How a block comment goes on: a `/` behind a `*` closes it.
#[derive(Clone, Copy)]
pub enum Comment {
    Plain,
    Star,
}

// Why a reading is refused: the Rust crate's kinds, apart from the cases of `Error`, so that one place adds the position.
#[derive(Clone, Copy)]
pub enum ErrorKind {
    Io(u8),
    TooLong,
    TextTooLong,
    UnclosedString,
    IncompleteComment,
    InvalidUtf8AsciiStream,
    InvalidOctalString,
    InvalidUtf16String,
}

impl ErrorKind {
    pub fn with_byte_offset(self, position: u32) -> Error
        ensures { result ≡ error_at self position }
    {
        match self {
            ErrorKind::Io(code) => Error::Io { code, position },
            ErrorKind::TooLong => Error::TooLong { position },
            ErrorKind::TextTooLong => Error::TextTooLong { position },
            ErrorKind::UnclosedString => Error::UnclosedString { position },
            ErrorKind::IncompleteComment => Error::IncompleteComment { position },
            ErrorKind::InvalidUtf8AsciiStream => Error::InvalidUtf8AsciiStream { position },
            ErrorKind::InvalidOctalString => Error::InvalidOctalString { position },
            ErrorKind::InvalidUtf16String => Error::InvalidUtf16String { position },
        }
    }
}
