// `phrases type FILE`: standard input as a person types it. The typing calls over columns are used: those over a
// slice of records are the same calls, and a function around them is not covered by the borrow checker.
use crate::bursts::{BurstFields, InBursts};
use crate::sending::{Numbers, sent};
use file_commands::{Dictionary, load};
use std::io::Read;
use std::rt::Files;
use std::{fmt, io};
use tables::Tables;
use tool_io::{Codes, Escaped, Many, Stop};
use typing_columns::{Columns, Side};
use words::front;

// Where typing stands.
#[derive(Drop)]
struct Typing<'a> {
    tables: Tables<'a>,
    // The bytes typed, and what is recorded of each.
    columns: Columns,
    // How many of the bytes are not taken back.
    len: usize,
    // The lines ended, and the bytes of the line that is open.
    lines: usize,
    open: usize,
    // The bytes that had no room.
    refused: usize,
}

// What is shown: the length, the count, the bursts, and the bytes that had no room.
impl fmt::Display for Typing<'_> {
    fn fmt<W: fmt::Write>(&self, f: &mut fmt::Formatter<W>) -> fmt::Result {
        let (bytes, codes) = (Many(self.len, "byte"), InBursts(self.count()));
        write!(f, "{bytes}, {codes}")?;
        if self.refused != 0 {
            let refused = Many(self.refused, "byte");
            write!(f, "; FULL: {refused} not taken, a text has at most 4096")?;
        }
        Ok(())
    }
}

impl Typing<'_> {
    // The count of the bytes typed.
    fn count(&self) -> usize {
        self.columns
            .token_count(&self.tables, Side::Append, self.len, 4096)
            .unwrap_or(0)
    }

    // Types a byte: a backspace (8 or 127) truncates by one byte, any other byte is pushed.
    fn push(&mut self, byte: u8) {
        self.open = self.open.saturating_add(1);
        if byte == 8 || byte == 127 {
            self.len = self.len.saturating_sub(1);
            return;
        }
        match self
            .columns
            .extend(&self.tables, Side::Append, self.len, 4096, &[byte])
        {
            Ok(longer) => self.len = longer,
            Err(_) => self.refused = self.refused.saturating_add(1),
        }
    }

    // Ends an input line, and shows where typing stands.
    fn end_line(&mut self, rt: &impl Print) -> io::Result<()> {
        self.lines = self.lines.saturating_add(1);
        self.open = 0;
        let (lines, typing) = (self.lines, &*self);
        println!(rt; "line {lines}: {typing}")
    }

    // Types a byte, and shows where typing stands after it, or after an input line.
    fn type_byte(&mut self, rt: &impl Print, byte: u8, each: bool) -> io::Result<()> {
        self.push(byte);
        if each {
            let (escaped, typing) = (Escaped(byte), &*self);
            return println!(rt; "'{escaped}': {typing}");
        }
        if byte == b'\n' {
            return self.end_line(rt);
        }
        Ok(())
    }

    // Reads and types until the input ends; one that cannot be read has ended. A terminal that hands over each byte
    // ends it by Control-D, byte 4. A proved loop has to end, and nothing says that an input does: turns are counted up
    // to a number that no run comes to.
    fn type_input(&mut self, rt: &impl Print, input: &mut impl Read, each: bool) -> io::Result<()> {
        let mut buffer = [0u8; 4096];
        for _ in 0..u64::MAX {
            let size = input.read(&mut buffer).unwrap_or(0);
            let piece = front(&buffer, size);
            if piece.is_empty() || each && piece.starts_with(&[4]) {
                return Ok(());
            }
            for byte in piece {
                self.type_byte(rt, *byte, each)?;
            }
        }
        Ok(())
    }
}

// The codes as sent, and whether their number is the counter's.
fn say_agreement(rt: &impl Print, len: usize, sent: &[u32], counted: usize) -> io::Result<()> {
    let (codes, fields) = (Codes(sent), BurstFields(counted));
    println!(rt; "sent: {codes}")?;
    let count = sent.len();
    if count == counted {
        let bursts = InBursts(counted);
        println!(rt; "sender and counter agree: {bursts}")?;
        return println!(rt; "result: typed bytes={len} {fields} agree=yes");
    }
    println!(rt;
        "SENDER AND COUNTER DISAGREE: sent {count}, counted {counted}. \
        Do not send with this program; report the file and the text."
    )?;
    println!(rt; "result: typed bytes={len} {fields} agree=no")
}

// The command. `each` says whether the count is shown after each byte, as at a terminal, or after each input line. At
// the end a line that is still open is shown, then the codes as sent.
pub(crate) fn type_text(
    rt: &(impl Files + Print),
    file: &[u8],
    input: &mut impl Read,
    each: bool,
) -> Result<(), Stop> {
    let mut dictionary = Dictionary::blank();
    load(rt, file, &mut dictionary)?;
    let tables = dictionary.tables();
    let mut typing = Typing {
        tables,
        columns: Columns::blank(),
        len: 0,
        lines: 0,
        open: 0,
        refused: 0,
    };
    typing.type_input(rt, input, each)?;
    if typing.open != 0 && !each {
        typing.end_line(rt)?;
    }
    let len = typing.len;
    let mut codes: Numbers = [0; 4096];
    let sent = sent(rt, &tables, front(&typing.columns.bytes, len), &mut codes)?;
    say_agreement(rt, len, sent, typing.count())?;
    Ok(())
}
