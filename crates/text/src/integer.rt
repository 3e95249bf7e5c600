// The integers of a property list, from −2^63 to 2^64 − 1, each in one form. (Alone in this file: a ghost field imports
// every `ghost use` of its file, and the definitions that the methods cite name this very type.)
ghost use Rattle.std.specs.Prelude.{◌≡◌, true};
ghost use Rattle.text.specs.Forms.{own_form};

mod conversions;
mod methods;
mod shows;

pub use methods::one_form_each;

// Below 2^63 an integer is signed, from there on unsigned.
#[derive(Clone, Copy, PartialEq, Eq)]
enum Form {
    Signed(i64),
    Unsigned(u64),
}

#[derive(Clone, Copy, PartialEq, Eq)]
pub struct Integer {
    form: Form,
    ghost own: { own_form form ≡ true },
}
