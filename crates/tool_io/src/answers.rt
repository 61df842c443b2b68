// What a command says in place of an answer, and how it ends then: a line for people and one for a script.
use crate::refusals::{Fields, Refused};
use crate::saying::Quoted;
use causes::Cause;
use std::fmt::Display;
use std::io;
use std::io::ErrorKind;

// Why a command ends without its answer.
#[derive(Debug, Drop)]
pub enum Stop {
    // A refusal or an error was said.
    Said,
    // What it says cannot be printed.
    Failed(io::Error),
}

impl From<io::Error> for Stop {
    fn from(error: io::Error) -> Stop {
        Stop::Failed(error)
    }
}

// The end after lines that were printed, or could not be.
fn end_after(printed: io::Result<()>) -> Stop {
    match printed {
        Ok(()) => Stop::Said,
        Err(error) => Stop::Failed(error),
    }
}

// Says that an argument is wrong, and why.
pub fn argument_error<D: Display + Drop>(
    rt: &impl Print,
    argument: &str,
    value: &[u8],
    reason: D,
) -> Stop {
    let value = Quoted(value);
    end_after(println!(rt;
        "error: {argument} {value}: {reason}\nresult: error argument={argument}"
    ))
}

// Says a refusal, and why.
pub fn refused<D: Display + Drop>(rt: &impl Print, cause: Cause, reason: D) -> Stop {
    let refused = Refused(cause);
    let fields = Fields(cause);
    end_after(println!(rt; "{refused}{reason}\nresult: {fields}"))
}

// The number of the system's error for a file that is not open.
const NOT_OPEN: i32 = 9;

// The system's error in words.
fn words_of(error: &io::Error) -> &'static str {
    match error.kind() {
        ErrorKind::NotFound => "there is no such file or folder",
        ErrorKind::PermissionDenied => "this user may not use it",
        ErrorKind::IsADirectory => "it is a folder",
        ErrorKind::NotADirectory => "a part of the name is no folder",
        ErrorKind::InvalidInput => "it is no name of a file",
        ErrorKind::InvalidFilename => "the name is too long",
        ErrorKind::StorageFull => "the disk is full",
        ErrorKind::ReadOnlyFilesystem => "the disk cannot be written",
        _ if error.raw_os_error() == Some(NOT_OPEN) => "it is not open",
        _ => "the system refuses it",
    }
}

// Says that a file cannot be read or written, and why.
pub fn file_error(rt: &impl Print, argument: &str, name: &[u8], error: &io::Error) -> Stop {
    argument_error(rt, argument, name, words_of(error))
}
