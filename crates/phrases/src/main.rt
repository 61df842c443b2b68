// The program `phrases`: its arguments as a command line for the library `phrase_tool`. docs/phrases.md says what the
// commands are.
#![tactic(auto)]

use std::env::{Env, FillError};
use std::io;
use std::io::IsTerminal;
use words::{front, put, put_all};

// Puts all arguments but the program's name at the front of a line, each ended by a byte 0, as far as there is room,
// and gives the place behind them. One of more than 4,095 bytes is an empty one. They are read as bytes, since one need
// not be UTF-8.
fn put_arguments(rt: &impl Env, line: &mut [u8]) -> usize {
    let mut argument = [0u8; 4096];
    let mut end = 0;
    for i in 1..usize::MAX {
        if line.len() <= end {
            break;
        }
        let size = match rt.arg(i, &mut argument) {
            Ok(size) => size,
            Err(FillError::TooLong) => 0,
            Err(FillError::NotPresent) => break,
        };
        end = put_all(line, end, front(&argument, size));
        end = put(line, end, 0);
    }
    end
}

fn main(rt: HostRuntime) -> io::Result<()> {
    let mut line = [0u8; 16384];
    let size = put_arguments(&rt, &mut line);
    let mut input = rt.stdin();
    let each = input.is_terminal();
    phrase_tool::run(&rt, front(&line, size), &mut input, each)
}
