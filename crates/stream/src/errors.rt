// Why a call is refused: one number for each reason, and what it carries.
ghost use Rattle.std.specs.Prelude.{◌≡◌, Some, Decides};
ghost use Rattle.std.specs.Cmp.{partial_equiv_from_equiv};
ghost use Rattle.stream.specs.Equals.{equal_error, error_laws};
ghost use Rattle.stream.specs.Errors.{number_of, position_of, code_of, expected_of, found_of, name_of, refusal_text};

use crate::kinds::EventKind;
use crate::labels::Labelled;
use std::fmt;

// The first six are of a call: too little scratch, or an argument that names nothing, the wrong thing or no key. The next eight are
// of bytes: their source broke, there are too many, or they spell no list; a position counts the bytes that were taken. The rest are
// of events: they spell no value, or the store is full.
#[derive(Clone, Copy, Debug)]
pub enum Error {
    ShortScratch,
    NoValue,
    WrongKind,
    NoTree,
    Inside,
    BadKey,
    Io {
        code: u8,
        position: u32,
    },
    TooLong {
        position: u32,
    },
    TextTooLong {
        position: u32,
    },
    UnclosedString {
        position: u32,
    },
    IncompleteComment {
        position: u32,
    },
    InvalidUtf8AsciiStream {
        position: u32,
    },
    InvalidOctalString {
        position: u32,
    },
    InvalidUtf16String {
        position: u32,
    },
    UnexpectedEventType {
        expected: EventKind,
        found: EventKind,
    },
    ExpectedEndOfEventStream {
        found: EventKind,
    },
    NoNodes,
    NoTextCells,
    UnexpectedEndOfEventStream,
}

impl Error {
    // Each refusal has a number, by a rule of the project. Written out, since `as` takes no enum whose cases carry something.
    pub fn number(self) -> u8
        ensures { result ≡ number_of self }
    {
        match self {
            Error::ShortScratch => 1,
            Error::NoValue => 2,
            Error::WrongKind => 3,
            Error::NoTree => 4,
            Error::Inside => 5,
            Error::BadKey => 6,
            Error::Io { .. } => 7,
            Error::TooLong { .. } => 8,
            Error::TextTooLong { .. } => 9,
            Error::UnclosedString { .. } => 10,
            Error::IncompleteComment { .. } => 11,
            Error::InvalidUtf8AsciiStream { .. } => 12,
            Error::InvalidOctalString { .. } => 13,
            Error::InvalidUtf16String { .. } => 14,
            Error::UnexpectedEventType { .. } => 15,
            Error::ExpectedEndOfEventStream { .. } => 16,
            Error::NoNodes => 17,
            Error::NoTextCells => 18,
            Error::UnexpectedEndOfEventStream => 19,
        }
    }

    // Where in the bytes it came, if the refusal is one of reading.
    pub fn position(self) -> Option<u32>
        ensures { result ≡ position_of self }
    {
        match self {
            Error::Io { position, .. }
            | Error::TooLong { position }
            | Error::TextTooLong { position }
            | Error::UnclosedString { position }
            | Error::IncompleteComment { position }
            | Error::InvalidUtf8AsciiStream { position }
            | Error::InvalidOctalString { position }
            | Error::InvalidUtf16String { position } => Some(position),
            _ => None,
        }
    }

    // What the byte source said, if it broke.
    pub fn code(self) -> Option<u8>
        ensures { result ≡ code_of self }
    {
        match self {
            Error::Io { code, .. } => Some(code),
            _ => None,
        }
    }

    pub fn expected(self) -> Option<EventKind>
        ensures { result ≡ expected_of self }
    {
        match self {
            Error::UnexpectedEventType { expected, .. } => Some(expected),
            _ => None,
        }
    }

    pub fn found(self) -> Option<EventKind>
        ensures { result ≡ found_of self }
    {
        match self {
            Error::UnexpectedEventType { found, .. } => Some(found),
            Error::ExpectedEndOfEventStream { found } => Some(found),
            _ => None,
        }
    }

    // Written out, since no contract says what a derived Debug writes.
    pub fn name(self) -> &'static str
        ensures { result.now ≡ name_of self }
    {
        match self {
            Error::ShortScratch => "ShortScratch",
            Error::NoValue => "NoValue",
            Error::WrongKind => "WrongKind",
            Error::NoTree => "NoTree",
            Error::Inside => "Inside",
            Error::BadKey => "BadKey",
            Error::Io { .. } => "Io",
            Error::TooLong { .. } => "TooLong",
            Error::TextTooLong { .. } => "TextTooLong",
            Error::UnclosedString { .. } => "UnclosedString",
            Error::IncompleteComment { .. } => "IncompleteComment",
            Error::InvalidUtf8AsciiStream { .. } => "InvalidUtf8AsciiStream",
            Error::InvalidOctalString { .. } => "InvalidOctalString",
            Error::InvalidUtf16String { .. } => "InvalidUtf16String",
            Error::UnexpectedEventType { .. } => "UnexpectedEventType",
            Error::ExpectedEndOfEventStream { .. } => "ExpectedEndOfEventStream",
            Error::NoNodes => "NoNodes",
            Error::NoTextCells => "NoTextCells",
            Error::UnexpectedEndOfEventStream => "UnexpectedEndOfEventStream",
        }
    }
}

// By hand: of a derived `==` a caller is not told at the call that it decides sameness.
impl PartialEq for Error {
    ghost eq = { equal_error };

    ghost laws = { partial_equiv_from_equiv error_laws };

    fn eq(&self, other: &Error) -> bool
        ensures value { result ≡ equal_error self.now other.now }
        ensures same { Decides result (self.now ≡ other.now) }
    {
        self.number() == other.number()
            && self.code() == other.code()
            && self.expected() == other.expected()
            && self.found() == other.found()
            && self.position() == other.position()
    }
}

impl Eq for Error {
    ghost laws = { error_laws };
}

// Two refusals are equal exactly where they are the same: of one reason, and what they carry is the same. So are two kinds.
pub fn equal_where_same()
    ensures errors { (a b : Error) → Decides (⟦<Error as PartialEq>⟧.eq a b) (a ≡ b) }
    ensures kinds { (a b : EventKind) → Decides (⟦<EventKind as PartialEq>⟧.eq a b) (a ≡ b) }
{}

impl fmt::Display for Error {
    ghost output = { λ e. Some (refusal_text e) };

    fn fmt<W: fmt::Write>(&self, f: &mut fmt::Formatter<W>) -> fmt::Result {
        let number = self.number();
        let name = self.name();
        let code = Labelled::new(" code=", self.code());
        let expected = Labelled::new(" expected=", self.expected());
        let found = Labelled::new(" found=", self.found());
        let position = Labelled::new(" at ", self.position());
        write!(
            f,
            "refused {number} {name}{code}{expected}{found}{position}"
        )
    }
}

#[cfg(test)]
mod tests {
    use super::*;
    use std::test::Fail;

    #[test]
    fn writes_a_refusal(rt: HostRuntime) -> Result<(), Fail> {
        let io = Error::Io {
            code: 1,
            position: 71,
        };
        let text = format!(in rt.alloc(); "{io}, {}", Error::NoNodes)?;
        assert_eq!(rt;
            text.as_str(),
            "refused 7 Io code=1 at 71, refused 17 NoNodes"
        );
        Ok(())
    }
}
