// What every byte source answers when it is asked for a byte.
ghost use Rattle.std.specs.Prelude.{ℕ, List, Some};
ghost use Rattle.source.specs.Asking.{Asked};
ghost use Rattle.source.specs.Endings.{Ending, ending_text, fault_text};

use std::error::Error;
use std::fmt;

// What keeps a source from giving more bytes. Only the source knows what its code says.
#[derive(Clone, Copy, PartialEq, Eq, Debug)]
pub struct Fault {
    pub code: u8,
}

impl fmt::Display for Fault {
    ghost output = { λ f. Some (fault_text f) };

    fn fmt<W: fmt::Write>(&self, f: &mut fmt::Formatter<W>) -> fmt::Result {
        write!(f, "fault {}", self.code)
    }
}

impl Error for Fault {}

// How the bytes of a source end: there are no more, or a fault keeps it from giving more.
pub type Ending = Result<(), Fault>;

// Prints an ending: `end`, or the fault.
#[derive(Clone, Copy, PartialEq, Eq, Debug)]
pub struct PrintedEnding(pub Ending);

impl fmt::Display for PrintedEnding {
    ghost output = { λ e. Some (ending_text e.0) };

    fn fmt<W: fmt::Write>(&self, f: &mut fmt::Formatter<W>) -> fmt::Result {
        match self.0 {
            Ok(()) => write!(f, "end"),
            Err(fault) => write!(f, "{fault}"),
        }
    }
}

pub trait ByteSource {
    // The bytes that are left, in order.
    ghost bytes: { Self → List ℕ };

    // What stands behind them.
    ghost ending: { Self → Ending };

    // The first byte that is left, which is then no longer left; or, with none left, the ending, each time.
    fn next(&mut self) -> Result<Option<u8>, Fault>
        ensures { Asked (bytes self.old) (ending self.old) result (bytes self.new) (ending self.new) };
}
