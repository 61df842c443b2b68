// The text of a command: a file or standard input, taken byte for byte.
use causes::Cause;
use std::fmt::Display;
use std::io::Read;
use std::rt::Files;
use tool_io::{Many, Quoted, ReadError, Stop, argument_error, file_error, read_given, refused};
use words::front;

// A text of more than 4,096 bytes: cause 9.
fn too_long<D: Display + Drop>(rt: &impl Print, name: &[u8], size: D) -> Stop {
    let name = Quoted(name);
    let reason = format_args!(
        "TEXT {name} has {size} and may have 4096; cut it into shorter texts"
    );
    refused(rt, Cause::TooLong, reason)
}

// A text as it is read. It has room for more than may be sent, so that the length of a longer one can be said.
pub(crate) type Text = [u8; 65536];

// Reads a text of at most 4,096 bytes into a buffer, or says why it cannot.
pub(crate) fn read_text<'a>(
    rt: &(impl Files + Print),
    name: &[u8],
    input: &mut impl Read,
    buffer: &'a mut Text,
) -> Result<&'a [u8], Stop> {
    match read_given(rt, name, input, buffer) {
        Ok(size @ 0..=4096) => Ok(front(buffer, size)),
        Ok(size) => Err(too_long(rt, name, Many(size, "byte"))),
        Err(ReadError::Over) => Err(too_long(rt, name, "over 65536 bytes")),
        Err(ReadError::Failed(error)) => Err(file_error(rt, "TEXT", name, &error)),
    }
}

// Reads the text of `decode`, or says why it cannot: numbers, of which no more are read than the buffer has room for.
pub(crate) fn read_numbers<'a>(
    rt: &(impl Files + Print),
    name: &[u8],
    input: &mut impl Read,
    buffer: &'a mut Text,
) -> Result<&'a [u8], Stop> {
    match read_given(rt, name, input, buffer) {
        Ok(size) => Ok(front(buffer, size)),
        Err(ReadError::Over) => {
            Err(argument_error(rt, "TEXT", name, "it has more than 65536 bytes"))
        }
        Err(ReadError::Failed(error)) => Err(file_error(rt, "TEXT", name, &error)),
    }
}
