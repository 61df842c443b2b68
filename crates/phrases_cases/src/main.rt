// Works through command lines of `phrases`, one on each line of standard input, over the same library function as the
// program. README.md says what a line may hold.
#![tactic(auto)]

ghost use Rattle.std.specs.Prelude.{◌<◌, length};

use std::io::{Read, Write};
use std::rt::Files;
use std::{fs, io};
use text_forms::unescape;
use tool_io::read_full;
use words::{back, count_before, front, number, put, put_all};

// What stands before the first byte of this value, and what follows it.
fn split_at_byte(text: &[u8], byte: u8) -> (&[u8], &[u8])
    ensures { 0 < length text.now → length result.1.now < length text.now }
{
    let size = count_before(text, byte);
    (front(text, size), back(text, size.saturating_add(1)))
}

// Puts the bytes of an escaped text of at most 64 bytes at a place, as far as there is room, and gives the place behind
// them.
fn put_unescaped(text: &[u8], out: &mut [u8], at: usize) -> usize {
    let mut phrase = [0u8; 64];
    match unescape(text, &mut phrase) {
        Ok(size) => put_all(out, at, front(&phrase, size)),
        Err(_) => at,
    }
}

// Puts a command line as the library takes it: each word is ended by a byte 0, and '' is an empty one.
fn put_words(line: &[u8], out: &mut [u8]) -> usize {
    let mut end = 0;
    let mut left = line;
    while !left.is_empty() {
        let (word, rest) = split_at_byte(left, b' ');
        match word {
            b"''" => {}
            _ => end = put_unescaped(word, out, end),
        }
        end = put(out, end, 0);
        left = rest;
    }
    end
}

// Puts an escaped text so many times, as far as there is room.
fn put_times(text: &[u8], times: u64, out: &mut [u8]) -> usize {
    let mut end = 0;
    for _ in 0..times {
        if out.len() <= end {
            break;
        }
        end = put_unescaped(text, out, end);
    }
    end
}

// A name as the system's calls take it: empty where it is not UTF-8.
fn path_of(name: &[u8]) -> &str {
    std::str::from_utf8(name).unwrap_or("")
}

// `write NAME TIMES TEXT`: at most 131,072 bytes.
fn write(rt: &impl Files, arguments: &[u8]) -> io::Result<()> {
    let (name, rest) = split_at_byte(arguments, b' ');
    let (times, text) = split_at_byte(rest, b' ');
    let Some(times) = number(times) else {
        return Ok(());
    };
    let mut bytes = [0u8; 131072];
    let size = put_times(text, times, &mut bytes);
    fs::create(rt, path_of(name))?.write_all(front(&bytes, size))
}

// `print NAME`: at most 131,072 bytes.
fn print(rt: &(impl Files + Print), name: &[u8]) -> io::Result<()> {
    let mut bytes = [0u8; 131072];
    let mut file = fs::open(rt, path_of(name))?;
    let size = read_full(&mut file, &mut bytes)?;
    rt.write_all(front(&bytes, size))
}

// The system's error for a file that is not open.
const NOT_OPEN: i32 = 9;

// A standard input that is not open.
#[derive(Drop)]
struct Closed {}

impl Read for Closed {
    fn read(&mut self, _buf: &mut [u8]) -> io::Result<usize> {
        Err(io::Error::from_raw_os_error(NOT_OPEN))
    }
}

// `phrases WORD ..`, with the file `input` as standard input.
fn run(rt: &(impl Files + Print), words: &[u8], each: bool) -> io::Result<()> {
    let mut buffer = [0u8; 8192];
    let size = put_words(words, &mut buffer);
    let line = front(&buffer, size);
    match fs::open(rt, "input") {
        Ok(mut input) => phrase_tool::run(rt, line, &mut input, each),
        Err(_) => phrase_tool::run(rt, line, &mut Closed {}, each),
    }
}

// Does a line, and gives whether `type` shows the count after each byte from now on.
fn obey(rt: &(impl Files + Print), line: &[u8], each: bool) -> io::Result<bool> {
    let (command, arguments) = split_at_byte(line, b' ');
    match command {
        b"each" => match arguments {
            b"byte" => return Ok(true),
            b"line" => return Ok(false),
            _ => {}
        },
        b"write" => write(rt, arguments)?,
        b"print" => print(rt, arguments)?,
        b"phrases" => {
            rt.write_all(b"> ")?;
            rt.write_all(line)?;
            rt.write_all(b"\n")?;
            run(rt, arguments, each)?;
        }
        _ => {}
    }
    Ok(each)
}

fn main(rt: HostRuntime) -> io::Result<()> {
    let mut input = [0u8; 65536];
    let size = read_full(&mut rt.stdin(), &mut input)?;
    let mut left = front(&input, size);
    let mut each = false;
    while !left.is_empty() {
        let (line, rest) = split_at_byte(left, b'\n');
        each = obey(&rt, line, each)?;
        left = rest;
    }
    Ok(())
}
