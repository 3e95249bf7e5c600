// Text that is written only where there is something to write.
ghost use Rattle.std.specs.Prelude.{◌≡◌};
ghost use Rattle.stream.specs.Labels.{labelled};

use std::fmt;

// A label and what stands behind it, or nothing at all.
#[derive(Drop)]
pub struct Labelled<T> {
    label: &'static str,
    value: Option<T>,
}

impl<T> Labelled<T> {
    pub fn new(label: &'static str, value: Option<T>) -> Labelled<T>
        ensures label { result.label.now ≡ label.now }
        ensures value { result.value ≡ value }
    {
        Labelled { label, value }
    }
}

impl<T: fmt::Display> fmt::Display for Labelled<T> {
    ghost output = { λ x. labelled x.label.now T.Display.output x.value };

    fn fmt<W: fmt::Write>(&self, f: &mut fmt::Formatter<W>) -> fmt::Result {
        match &self.value {
            Some(value) => {
                let label = self.label;
                write!(f, "{label}{value}")
            }
            None => Ok(()),
        }
    }
}
