// The commands of the program `phrases`. Each prints its answer to standard output; the last line begins with
// `result:`. A script reads that line; the exit status tells no more than whether all was printed. A text is taken byte
// for byte, a line end at its end included: the handset sends what was typed. No command takes long enough to show
// progress. The tool is four crates and not one, since `rt` proves a level at a time and a core stood idle beside the
// one long crate.
#![tactic(auto)]

mod bursts;
mod decoding;
mod fitting;
mod pairs;
mod sending;
mod showing;
mod texts;
mod typing_command;
mod usage;

use crate::usage::PAGE;
use file_commands::{check, make_phrase_file};
use std::io;
use std::io::Read;
use std::rt::Files;
use tool_io::{Quoted, Stop};
use words::front;

// The page of usage.
fn help(rt: &impl Print) -> Result<(), Stop> {
    print!(rt; "{PAGE}")?;
    Ok(())
}

// A wrong number of arguments.
fn wrong_count(rt: &impl Print, command: &str, takes: &str, given: usize) -> Result<(), Stop> {
    print!(rt; "error: {command} takes {takes}; arguments given: {given}; ")?;
    println!(rt; "see phrases help\nresult: error argument=count")?;
    Err(Stop::Said)
}

// A word that is no command.
fn unknown(rt: &impl Print, command: &[u8]) -> Result<(), Stop> {
    let command = Quoted(command);
    println!(rt;
        "error: {command} is no command; see phrases help\nresult: error argument=command"
    )?;
    Err(Stop::Said)
}

// A command over a phrase file and a text to send.
fn run_text(
    rt: &(impl Files + Print),
    command: &[u8],
    arguments: &[&[u8]],
    given: usize,
    input: &mut impl Read,
) -> Result<(), Stop> {
    match command {
        b"encode" => match arguments {
            &[file, text] => crate::sending::encode(rt, file, text, input),
            _ => wrong_count(rt, "encode", "FILE TEXT", given),
        },
        b"count" => match arguments {
            &[file, text] => crate::sending::count(rt, file, text, input),
            _ => wrong_count(rt, "count", "FILE TEXT", given),
        },
        b"shortest" => match arguments {
            &[file, text] => crate::sending::shortest(rt, file, text, input),
            _ => wrong_count(rt, "shortest", "FILE TEXT", given),
        },
        b"show" => match arguments {
            &[file, text, out] => crate::showing::show(rt, file, text, out, input),
            _ => wrong_count(rt, "show", "FILE TEXT OUT", given),
        },
        b"fits" => match arguments {
            &[file, text, bursts] => crate::fitting::fits(rt, file, text, bursts, input),
            _ => wrong_count(rt, "fits", "FILE TEXT BURSTS", given),
        },
        _ => unknown(rt, command),
    }
}

// A command and its arguments: the first of those given, one more than any command takes.
fn run_command(
    rt: &(impl Files + Print),
    command: &[u8],
    arguments: &[&[u8]],
    given: usize,
    input: &mut impl Read,
    each: bool,
) -> Result<(), Stop> {
    match command {
        b"help" => help(rt),
        b"sheet" => match arguments {
            &[sheet, out] => make_phrase_file(rt, sheet, out),
            _ => wrong_count(rt, "sheet", "SHEET OUT", given),
        },
        b"check" => match arguments {
            &[file] => check(rt, file, None),
            &[file, factor] => check(rt, file, Some(factor)),
            _ => wrong_count(rt, "check", "FILE [FACTOR]", given),
        },
        b"decode" => match arguments {
            &[file, text] => crate::decoding::decode(rt, file, text, input),
            _ => wrong_count(rt, "decode", "FILE TEXT", given),
        },
        b"type" => match arguments {
            &[file] => crate::typing_command::type_text(rt, file, input, each),
            _ => wrong_count(rt, "type", "FILE", given),
        },
        b"why" => match arguments {
            &[file, left, right] => crate::pairs::why(rt, file, left, right),
            _ => wrong_count(rt, "why", "FILE ROW ROW", given),
        },
        _ => run_text(rt, command, arguments, given, input),
    }
}

// How many words a command line has.
fn word_count(line: &[u8]) -> usize {
    line.split_inclusive(|byte| *byte == 0).count()
}

// A word of a command line, counted from 0; an empty one if there is none.
fn word(line: &[u8], i: usize) -> &[u8] {
    let word = line
        .split_inclusive(|byte| *byte == 0)
        .nth(i)
        .unwrap_or(&[]);
    word.strip_suffix(&[0]).unwrap_or(word)
}

// Runs a command line: the command and its arguments, each word ended by a byte 0, which no argument of a program
// holds; the page of usage where there is no word. `input` is standard input; `each` says whether `type` shows the
// count after each byte. An error is one of printing.
pub fn run(
    rt: &(impl Files + Print),
    line: &[u8],
    input: &mut impl Read,
    each: bool,
) -> io::Result<()> {
    let count = word_count(line);
    let answered = if count == 0 {
        help(rt)
    } else {
        let given = count - 1;
        let arguments = [word(line, 1), word(line, 2), word(line, 3), word(line, 4)];
        run_command(
            rt,
            word(line, 0),
            front(&arguments, given),
            given,
            input,
            each,
        )
    };
    match answered {
        Ok(()) | Err(Stop::Said) => Ok(()),
        Err(Stop::Failed(error)) => Err(error),
    }
}
