// Words, numbers and escaped bytes of the lines of a script, and the reading of such lines.
ghost use Rattle.std.specs.Prelude.{length, ◌<◌};
ghost use Rattle.std.specs.Iterator.{at_most};

use crate::held::Held;
use std::io;
use std::io::BufRead;

// The first word of a line, and what follows it and a space.
pub(crate) fn split_word(line: &[u8]) -> (&[u8], &[u8]) {
    match line.iter().position(|byte| *byte == b' ') {
        Some(end) => (&line[..end], &line[end + 1..]),
        None => (line, &[]),
    }
}

// The value of a digit, 0 for any other byte.
fn digit(byte: u8) -> u8
    ensures { result < 16 }
{
    match byte {
        b'0'..=b'9' => byte - b'0',
        b'a'..=b'f' => byte - b'a' + 10,
        _ => 0,
    }
}

// One digit more, or the largest number.
fn with_digit(value: u64, byte: u8) -> u64 {
    if value > 1844674407370955160 {
        return u64::MAX;
    }
    (value * 10).saturating_add(u64::from(digit(byte)))
}

// The number that the first word of a line writes.
pub(crate) fn number(line: &[u8]) -> u64 {
    let (word, _) = split_word(line);
    word.iter().fold(0, |value, byte| with_digit(value, *byte))
}

// The same as a size.
pub(crate) fn size(line: &[u8]) -> usize {
    number(line) as usize
}

// The same as a number of 32 bits, the largest where it is larger.
pub(crate) fn entry(line: &[u8]) -> u32 {
    u32::try_from(number(line)).unwrap_or(u32::MAX)
}

// The bytes that a line of escaped bytes writes: \xNN is the byte NN, \\ a backslash.
#[derive(Drop)]
pub(crate) struct Unescaped<'a>(pub(crate) &'a [u8]);

impl Iterator for Unescaped<'_> {
    type Item = u8;

    ghost remaining = { λ s. at_most (length s.0.now) };

    fn next(&mut self) -> Option<u8> {
        let (byte, left) = match self.0 {
            [] => return None,
            [b'\\', b'x', high, low, left @ ..] => (digit(*high) * 16 + digit(*low), left),
            [b'\\', _, left @ ..] => (b'\\', left),
            [byte, left @ ..] => (*byte, left),
        };
        self.0 = left;
        Some(byte)
    }
}

// How many bytes of a line there is room for.
const LINE: usize = 32768;

// The bytes of a line that stand at the front of some bytes, at most so many, and whether the line ends behind them.
fn line_part(bytes: &[u8], room: usize) -> (&[u8], bool) {
    let front = &bytes[..bytes.len().min(room)];
    match front.iter().position(|byte| *byte == b'\n') {
        Some(end) => (&front[..end], true),
        None => (front, false),
    }
}

// Reads a line of an input, as far as there is room, and tells whether there is one.
pub(crate) fn read_line(input: &mut impl BufRead, line: &mut Held<u8, LINE>) -> io::Result<bool> {
    line.clear();
    for _ in 0..LINE {
        let bytes = input.fill_buf()?;
        if bytes.is_empty() {
            return Ok(line.len() > 0);
        }
        let (part, ends) = line_part(bytes, line.room());
        line.append(part);
        let taken = part.len().saturating_add(usize::from(ends));
        input.consume(taken);
        if ends || line.room() == 0 {
            return Ok(true);
        }
    }
    Ok(true)
}
