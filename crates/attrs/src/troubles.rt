// What keeps the program from doing what it was asked for. A refused list is none: that is printed as an answer.
use report::batches::BatchError;
use std::alloc::{AllocError, AllocFailed};
use std::{fmt, io};

#[derive(Drop)]
pub enum Trouble<'a> {
    // The words of the command are not understood.
    NoTask(&'a str),
    NoFile { task: &'a str },
    SecondFile { task: &'a str, word: &'a str },
    NoOption { task: &'a str, word: &'a str },
    NoCount,
    BadCount(&'a str),
    // A file cannot be read.
    Unread(&'a str, io::Error),
    // A batch file is malformed.
    Batch(&'a str, BatchError),
    Output(io::Error),
    Memory,
}

// By hand, since a derive would rest the program on one crate more for these sentences alone.
impl fmt::Display for Trouble<'_> {
    fn fmt<W: fmt::Write>(&self, f: &mut fmt::Formatter<W>) -> fmt::Result {
        match self {
            Trouble::NoTask(task) => write!(f, "there is no task {task}; see attrs --help"),
            Trouble::NoFile { task } => write!(f, "{task} takes a file, and none is given"),
            Trouble::SecondFile { task, word } => {
                write!(f, "{task} takes one file, and {word} is a second one")
            }
            Trouble::NoOption { task, word } => {
                write!(f, "{task} has no option {word}; see attrs --help")
            }
            Trouble::NoCount => write!(f, "--buffers takes a number from 0 to 3, and none follows"),
            Trouble::BadCount(word) => {
                write!(f, "--buffers takes a number from 0 to 3, not {word}")
            }
            Trouble::Unread(file, error) => write!(f, "cannot read {file}: {error}"),
            Trouble::Batch(file, error) => write!(f, "{file}, {error}"),
            Trouble::Output(error) => write!(f, "cannot write to standard output: {error}"),
            Trouble::Memory => write!(f, "out of memory"),
        }
    }
}

// Where a file is read, the error is made an `Unread`.
impl From<io::Error> for Trouble<'_> {
    fn from(error: io::Error) -> Self {
        Trouble::Output(error)
    }
}

impl From<AllocError> for Trouble<'_> {
    fn from(_e: AllocError) -> Self {
        Trouble::Memory
    }
}

impl<T: Drop> From<AllocFailed<T>> for Trouble<'_> {
    fn from(_e: AllocFailed<T>) -> Self {
        Trouble::Memory
    }
}
