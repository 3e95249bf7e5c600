// Every integer of 64 bits is an Integer.
ghost use Rattle.std.specs.Prelude.{◌≡◌, pos};
ghost use Rattle.text.specs.Integers.{value};

use super::{Form, Integer};

impl From<i64> for Integer {
    ghost from_gives = { λ v r. value r ≡ v };

    fn from(v: i64) -> Integer {
        Integer {
            form: Form::Signed(v),
        }
    }
}

impl From<u64> for Integer {
    ghost from_gives = { λ v r. value r ≡ pos v };

    fn from(v: u64) -> Integer {
        match i64::try_from(v) {
            Ok(low) => Integer {
                form: Form::Signed(low),
            },
            Err(_) => Integer {
                form: Form::Unsigned(v),
            },
        }
    }
}
