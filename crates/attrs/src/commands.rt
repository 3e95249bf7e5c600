// The words of a command, taken apart.
use crate::troubles::Trouble;
use report::inputs::ListFile;

#[derive(Drop)]
pub enum Command<'a> {
    Help,
    Bytes(Input<'a>),
    Events(Input<'a>),
    // The name of the file.
    Batch(&'a str),
}

// Where a list comes from: a `ListFile` before its file is read, with the file's name in place of its bytes. (One struct with a
// parameter for what it holds would be no plainer: the report's methods are for bytes alone.)
#[derive(Clone, Copy)]
pub struct Input<'a> {
    pub file: &'a str,
    deck: bool,
    buffers: u8,
}

impl Input<'_> {
    // The list that the bytes of the file are.
    pub fn list<'b>(&self, bytes: &'b [u8]) -> ListFile<'b> {
        ListFile {
            list: bytes,
            deck: self.deck,
            buffers: self.buffers,
        }
    }
}

// How many buffers a word asks for. `parse` would take `+1` and `01` too.
fn buffers(word: &str) -> Result<u8, Trouble<'_>> {
    match word {
        "0" => Ok(0),
        "1" => Ok(1),
        "2" => Ok(2),
        "3" => Ok(3),
        _ => Err(Trouble::BadCount(word)),
    }
}

fn is_option(word: &str) -> bool {
    word != "-" && word.starts_with('-')
}

fn take_input<'a>(task: &'a str, words: &'a [String]) -> Result<Input<'a>, Trouble<'a>> {
    let mut file = None;
    let mut deck = false;
    let mut between = 1;
    let mut rest = words.iter();
    while let Some(given) = rest.next() {
        match given.as_str() {
            "--deck" => deck = true,
            "--buffers" => {
                let count = rest.next().ok_or(Trouble::NoCount)?;
                between = buffers(count.as_str())?;
            }
            word if is_option(word) => return Err(Trouble::NoOption { task, word }),
            word if file.is_some() => return Err(Trouble::SecondFile { task, word }),
            word => file = Some(word),
        }
    }
    Ok(Input {
        file: file.ok_or(Trouble::NoFile { task })?,
        deck,
        buffers: between,
    })
}

fn take_file<'a>(task: &'a str, words: &'a [String]) -> Result<&'a str, Trouble<'a>> {
    let [given, rest @ ..] = words else {
        return Err(Trouble::NoFile { task });
    };
    let word = given.as_str();
    if is_option(word) {
        return Err(Trouble::NoOption { task, word });
    }
    match rest {
        [] => Ok(word),
        [second, ..] => Err(Trouble::SecondFile {
            task,
            word: second.as_str(),
        }),
    }
}

// The command that the words behind the program's name ask for.
pub fn parse(words: &[String]) -> Result<Command<'_>, Trouble<'_>> {
    let [first, rest @ ..] = words else {
        return Ok(Command::Help);
    };
    let task = first.as_str();
    match task {
        "--help" => Ok(Command::Help),
        "bytes" => Ok(Command::Bytes(take_input(task, rest)?)),
        "events" => Ok(Command::Events(take_input(task, rest)?)),
        "batch" => Ok(Command::Batch(take_file(task, rest)?)),
        _ => Err(Trouble::NoTask(task)),
    }
}
