// attrs: looks at ASCII property lists from the command line.
#![tactic(auto)]

mod commands;
mod troubles;

use commands::{Command, Input};
use report::batches::{BatchError, batch_of};
use std::io::Read;
use std::process::ExitCode;
use std::{env, fs};
use troubles::Trouble;

const HELP: &str = "attrs looks at ASCII property lists.

    attrs events [--deck] [--buffers N] FILE   the events that spell the list, one a line, and on the last line `end`
                                               or the refusal: its number, its name, what it carries and its position
    attrs batch FILE                           the same of many lists: FILE has one a line, in hexadecimal (- for no bytes),
                                               and each is answered by a line, the events parted by `; `
    attrs bytes [--deck] [--buffers N] FILE    the bytes that the list's byte source gives, in hexadecimal,
                                               and on a line of its own `end` or `fault CODE`
    attrs --help                               this text

FILE is the list's file, or - for standard input. --deck reads it as a deck of 80-byte cards,
and --buffers N puts N buffers between (0 to 3, and 1 if it is not given).
A refused list is an answer like any other; where attrs cannot do what it is asked for, it says why and ends with status 1.";

// A file as a sentence names it.
fn name_of(file: &str) -> &str {
    if file == "-" { "standard input" } else { file }
}

// All of a file, or of standard input.
fn contents<'a>(rt: &HostRuntime, file: &'a str) -> Result<Vec<u8>, Trouble<'a>> {
    let read = if file == "-" {
        let mut bytes = Vec::new(rt.alloc());
        rt.stdin().read_to_end(&mut bytes).map(|_| bytes)
    } else {
        fs::read(rt, file)
    };
    read.map_err(|error| Trouble::Unread(name_of(file), error))
}

fn bytes<'a>(rt: &HostRuntime, input: Input<'a>) -> Result<(), Trouble<'a>> {
    let list = contents(rt, input.file)?;
    let text = input.list(list.as_slice()).bytes(rt.alloc())?;
    Ok(rt.stdout().write_all(text.as_slice())?)
}

fn events<'a>(rt: &HostRuntime, input: Input<'a>) -> Result<(), Trouble<'a>> {
    let list = contents(rt, input.file)?;
    let mut text = input.list(list.as_slice()).events(rt.alloc(), b"\n")?;
    text.push(b'\n')?;
    Ok(rt.stdout().write_all(text.as_slice())?)
}

fn batch<'a>(rt: &HostRuntime, file: &'a str) -> Result<(), Trouble<'a>> {
    let lines = contents(rt, file)?;
    match batch_of(rt.alloc(), lines.as_slice()) {
        Ok(text) => Ok(rt.stdout().write_all(text.as_slice())?),
        Err(BatchError::Memory(error)) => Err(error.into()),
        Err(error) => Err(Trouble::Batch(name_of(file), error)),
    }
}

fn run<'a>(rt: &HostRuntime, words: &'a [String]) -> Result<(), Trouble<'a>> {
    match commands::parse(words)? {
        Command::Help => Ok(rt.println(HELP)?),
        Command::Bytes(input) => bytes(rt, input),
        Command::Events(input) => events(rt, input),
        Command::Batch(file) => batch(rt, file),
    }
}

// The words behind the program's name.
fn words(rt: &HostRuntime) -> Result<Vec<String>, Trouble<'static>> {
    let all = env::args(rt).map_err(|error| Trouble::Unread("the words of the command", error))?;
    Ok(all.skip(1).collect(rt.alloc())?)
}

fn status(rt: &HostRuntime, done: Result<(), Trouble>) -> ExitCode {
    match done {
        Ok(()) => ExitCode::SUCCESS,
        Err(trouble) => {
            let _ = eprintln!(rt; "attrs: {trouble}");
            ExitCode::FAILURE
        }
    }
}

fn main(rt: HostRuntime) -> ExitCode {
    match words(&rt) {
        Ok(words) => status(&rt, run(&rt, words.as_slice())),
        Err(trouble) => status(&rt, Err(trouble)),
    }
}
