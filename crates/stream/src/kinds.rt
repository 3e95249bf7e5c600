// The kinds of events, as refusals name them.
ghost use Rattle.std.specs.Prelude.{◌≡◌, Some};
ghost use Rattle.stream.specs.Kinds.{kind_name};

use std::fmt;

#[derive(Clone, Copy, PartialEq, Eq, Debug)]
pub enum EventKind {
    StartArray,
    StartDictionary,
    EndCollection,
    Boolean,
    Data,
    Integer,
    Real,
    String,
    Uid,
    // What was expected where a value is due.
    ValueOrStartCollection,
    // What was expected where a key is due.
    DictionaryKeyOrEndCollection,
}

impl EventKind {
    // Written out, since no contract says what a derived Debug writes.
    pub fn name(self) -> &'static str
        ensures { result.now ≡ kind_name self }
    {
        match self {
            EventKind::StartArray => "StartArray",
            EventKind::StartDictionary => "StartDictionary",
            EventKind::EndCollection => "EndCollection",
            EventKind::Boolean => "Boolean",
            EventKind::Data => "Data",
            EventKind::Integer => "Integer",
            EventKind::Real => "Real",
            EventKind::String => "String",
            EventKind::Uid => "Uid",
            EventKind::ValueOrStartCollection => "ValueOrStartCollection",
            EventKind::DictionaryKeyOrEndCollection => "DictionaryKeyOrEndCollection",
        }
    }
}

impl fmt::Display for EventKind {
    ghost output = { λ k. Some (kind_name k) };

    fn fmt<W: fmt::Write>(&self, f: &mut fmt::Formatter<W>) -> fmt::Result {
        f.write_str(self.name())
    }
}
