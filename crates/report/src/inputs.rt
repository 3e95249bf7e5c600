// Where a program takes a list from, chosen when it runs.
ghost use Rattle.std.specs.Prelude.{◌≡◌, min};
ghost use Rattle.report.specs.Inputs.{given_bytes, given_ending, file_bytes, file_ending, behind_bytes, behind_ending, between};

use source::buffers::Buffer;
use source::decks::Deck;
use source::slices::SliceSource;
use source::sources::{ByteSource, Fault};

// A file's bytes as they are, or as a deck of cards. An enum, and no boxed `dyn ByteSource`: no function may make one and hand it out.
#[derive(Drop)]
pub enum FileSource<'a> {
    Plain(SliceSource<'a>),
    Cards(Deck<'a>),
}

impl<'a> FileSource<'a> {
    // `deck` is yes or no, as the program's option is: an enum of two would name no more.
    pub fn new(file: &'a [u8], deck: bool) -> FileSource<'a>
        ensures bytes { file_bytes result ≡ given_bytes deck file.now }
        ensures ending { file_ending result ≡ given_ending deck file.now }
    {
        if deck {
            FileSource::Cards(Deck::new(file))
        } else {
            FileSource::Plain(SliceSource::new(file))
        }
    }
}

impl<'a> ByteSource for FileSource<'a> {
    ghost bytes = { file_bytes };

    ghost ending = { file_ending };

    fn next(&mut self) -> Result<Option<u8>, Fault> {
        match self {
            FileSource::Plain(source) => source.next(),
            FileSource::Cards(source) => source.next(),
        }
    }
}

// A source with up to three buffers between. An enum for the same reason: the types of the variants differ.
#[derive(Drop)]
pub enum Buffered<S> {
    Direct(S),
    Once(Buffer<S>),
    Twice(Buffer<Buffer<S>>),
    Thrice(Buffer<Buffer<Buffer<S>>>),
}

impl<S: ByteSource> Buffered<S> {
    // Three buffers are the most that are put between.
    pub fn new(source: S, buffers: u8) -> Buffered<S>
        ensures bytes { behind_bytes S.ByteSource.bytes result ≡ S.ByteSource.bytes source }
        ensures ending { behind_ending S.ByteSource.ending result ≡ S.ByteSource.ending source }
        ensures count { between result ≡ min buffers 3 }
    {
        match buffers {
            0 => Buffered::Direct(source),
            1 => Buffered::Once(Buffer::new(source)),
            2 => Buffered::Twice(Buffer::new(Buffer::new(source))),
            _ => Buffered::Thrice(Buffer::new(Buffer::new(Buffer::new(source)))),
        }
    }
}

impl<S: ByteSource> ByteSource for Buffered<S> {
    ghost bytes = { behind_bytes S.ByteSource.bytes };

    ghost ending = { behind_ending S.ByteSource.ending };

    fn next(&mut self) -> Result<Option<u8>, Fault> {
        match self {
            Buffered::Direct(source) => source.next(),
            Buffered::Once(source) => source.next(),
            Buffered::Twice(source) => source.next(),
            Buffered::Thrice(source) => source.next(),
        }
    }
}

// A list in a file, and how it is read: as it is or as a deck of cards, and through how many buffers.
#[derive(Clone, Copy)]
pub struct ListFile<'a> {
    pub list: &'a [u8],
    pub deck: bool,
    pub buffers: u8,
}
