// How an Integer is read.
ghost use Rattle.std.specs.Prelude.{◌≡◌, pos};
ghost use Rattle.std.specs.Option.{option_map};
ghost use Rattle.text.specs.Integers.{value, OneFormEach};
ghost use Rattle.text.specs.Ranges.{lowest_signed, highest_signed, highest_unsigned, within};

use super::{Form, Integer};

impl Integer {
    /// The value as an `i64`, if it is one.
    pub fn as_signed(self) -> Option<i64>
        ensures { result ≡ within lowest_signed highest_signed (value self) }
    {
        match self.form {
            Form::Signed(v) => Some(v),
            Form::Unsigned(_) => None,
        }
    }

    /// The value as a `u64`, if it is one.
    pub fn as_unsigned(self) -> Option<u64>
        ensures { option_map pos result ≡ within (pos 0) highest_unsigned (value self) }
    {
        match self.form {
            Form::Signed(v) => u64::try_from(v).ok(),
            Form::Unsigned(v) => Some(v),
        }
    }
}

/// Each integer from −2^63 to 2^64 − 1 is the value of one Integer, and of only one.
pub fn one_form_each()
    ensures { OneFormEach }
{}
