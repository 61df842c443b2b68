// The published FNV-1a vectors of 64 bits, read from standard input, whose first lines name their source. A line is a
// comment that begins with `#`, or a vector: how many times, the octets in hex (`-` for none), the value in hex. Each
// line that is wrong or malformed is told; the last line printed counts them all.
ghost use Rattle.std.specs.Prelude.{◌<◌, IfSome};

use fnv::{OFFSET, fnv1a};
use std::io;
use std::io::Read;
use tool_io::read_full;
use words::{front, number};

// How much of the list is read, in bytes.
const ROOM: usize = 16384;

// What a line of the list is.
#[derive(Clone, Copy)]
enum Kind {
    Comment,
    Right,
    Wrong,
    Malformed,
}

// How many lines there were, and how many of each kind but comments.
#[derive(Default, Drop)]
struct Tally {
    lines: u64,
    right: u64,
    wrong: u64,
    malformed: u64,
}

impl Tally {
    // Counts a line.
    fn count(&mut self, kind: Kind) {
        self.lines = self.lines.saturating_add(1);
        match kind {
            Kind::Comment => {}
            Kind::Right => self.right = self.right.saturating_add(1),
            Kind::Wrong => self.wrong = self.wrong.saturating_add(1),
            Kind::Malformed => self.malformed = self.malformed.saturating_add(1),
        }
    }
}

// The value of a hex digit, small letters.
fn digit(byte: u8) -> Option<u8>
    ensures { IfSome result (λ value. value < 16) }
{
    match byte {
        b'0'..=b'9' => Some(byte - b'0'),
        b'a'..=b'f' => Some(byte - b'a' + 10),
        _ => None,
    }
}

// The number that 16 hex digits write.
fn hex_number(word: &[u8]) -> Option<u64> {
    if word.len() != 16 {
        return None;
    }
    let mut value = 0;
    for byte in word {
        value = (value << 4) | u64::from(digit(*byte)?);
    }
    Some(value)
}

// The octet that two hex digits write.
fn hex_octet(word: &[u8]) -> Option<u8> {
    let [high, low] = word else {
        return None;
    };
    Some(digit(*high)? * 16 + digit(*low)?)
}

// The octets that a word writes, two digits each, put into the room: at most 128 of them, and `-` for none.
fn octets_of<'a>(word: &[u8], room: &'a mut [u8; 128]) -> Option<&'a [u8]> {
    if word == b"-".as_slice() {
        return Some(&[]);
    }
    if word.is_empty() || word.len() > 256 {
        return None;
    }
    for (octet, pair) in room.iter_mut().zip(word.chunks(2)) {
        *octet = hex_octet(pair)?;
    }
    room.get(..word.len() / 2)
}

// The hash of the octets, so many times. Not inlined, so that the count of the times stays in a register.
#[inline(never)]
fn hash_again(times: u64, octets: &[u8]) -> u64 {
    (0..times).fold(OFFSET, |hash, _| fnv1a(hash, octets))
}

// What a line is: whether the hash of the octets of a vector, so many times, is the published value.
fn judge(line: &[u8]) -> Kind {
    if line.starts_with(b"#") {
        return Kind::Comment;
    }
    let mut words = line.splitn(3, |byte| *byte == b' ');
    let (Some(times), Some(octets), Some(value)) = (words.next(), words.next(), words.next()) else {
        return Kind::Malformed;
    };
    let mut room = [0; 128];
    let (Some(times), Some(octets), Some(value)) = (
        number(times),
        octets_of(octets, &mut room),
        hex_number(value),
    ) else {
        return Kind::Malformed;
    };
    if hash_again(times, octets) == value {
        Kind::Right
    } else {
        Kind::Wrong
    }
}

// Tells a line that is not as it must be.
fn tell(rt: &impl Print, line: u64, kind: Kind) -> io::Result<()> {
    match kind {
        Kind::Comment | Kind::Right => Ok(()),
        Kind::Wrong => println!(rt; "line {line}: WRONG"),
        Kind::Malformed => println!(rt; "line {line}: malformed"),
    }
}

// Works through the lines of the list. Of a list that fills the room for it there may be more. Not inlined: the room
// takes stack only while this runs.
#[inline(never)]
pub(crate) fn work_through(rt: &impl Print, input: &mut impl Read) -> io::Result<()> {
    let mut list = [0; ROOM];
    let mut tally = Tally::default();
    let size = read_full(input, &mut list)?;
    if size == ROOM {
        println!(rt; "more than there is room for")?;
    }
    for line in front(&list, size).split_inclusive(|byte| *byte == b'\n') {
        let kind = judge(line.strip_suffix(b"\n").unwrap_or(line));
        tally.count(kind);
        tell(rt, tally.lines, kind)?;
    }
    let right = tally.right;
    let wrong = tally.wrong;
    let malformed = tally.malformed;
    println!(rt; "{right} vectors as published, {wrong} WRONG, {malformed} malformed")
}
