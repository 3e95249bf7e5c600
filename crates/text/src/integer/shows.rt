// How an Integer is written: in decimal.
ghost use Rattle.std.specs.Fmt.{signed_decimal};
ghost use Rattle.std.specs.Prelude.{Some};
ghost use Rattle.text.specs.Integers.{value};

use super::{Form, Integer};
use std::fmt;

impl fmt::Display for Integer {
    ghost output = { λ i. Some (signed_decimal (value i)) };

    fn fmt<W: fmt::Write>(&self, f: &mut fmt::Formatter<W>) -> fmt::Result {
        match self.form {
            Form::Signed(v) => fmt::Display::fmt(&v, f),
            Form::Unsigned(v) => fmt::Display::fmt(&v, f),
        }
    }
}

// By hand: the Rust crate's shows the number too, and a derived one would show the form.
impl fmt::Debug for Integer {
    fn fmt<W: fmt::Write>(&self, f: &mut fmt::Formatter<W>) -> fmt::Result {
        fmt::Display::fmt(self, f)
    }
}
