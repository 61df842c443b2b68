// Refusals in words: the cause's number and place, what stands there, and what to do.
use crate::rows::{bytes_of, row_with, row_with_hash};
use crate::saying::{Escaped, Many, Quoted};
use causes::Cause;
use phrase_file::num_rows;
use std::fmt;

// The beginning of a refusal's line: `refused (cause 6, place 0): `.
#[derive(Clone, Copy)]
pub struct Refused(pub Cause);

impl fmt::Display for Refused {
    fn fmt<W: fmt::Write>(&self, f: &mut fmt::Formatter<W>) -> fmt::Result {
        let cause = self.0;
        write!(
            f,
            "refused (cause {}, place {}): ",
            cause.number(),
            cause.place()
        )
    }
}

// A refusal for a script: `refused cause=6 place=0`.
#[derive(Clone, Copy)]
pub struct Fields(pub Cause);

impl fmt::Display for Fields {
    fn fmt<W: fmt::Write>(&self, f: &mut fmt::Formatter<W>) -> fmt::Result {
        let cause = self.0;
        write!(
            f,
            "refused cause={} place={}",
            cause.number(),
            cause.place()
        )
    }
}

// `row 256 'bc'`.
#[derive(Clone, Copy)]
pub struct Row<'a> {
    pub file: &'a [u8],
    pub row: usize,
}

impl fmt::Display for Row<'_> {
    fn fmt<W: fmt::Write>(&self, f: &mut fmt::Formatter<W>) -> fmt::Result {
        let row = self.row;
        write!(f, "row {row} {}", Quoted(bytes_of(self.file, row)))
    }
}

// Cause 2: which part of the record at an offset is wrong.
#[derive(Clone, Copy)]
struct BadRecord<'a> {
    file: &'a [u8],
    at: usize,
}

impl BadRecord<'_> {
    // A byte of the record, or the one that is wanted where the file has ended.
    fn byte_or(&self, i: usize, wanted: u8) -> u8 {
        match self.file.get(self.at.saturating_add(i)) {
            Some(byte) => *byte,
            None => wanted,
        }
    }

    // Whether the mark is wrong, as far as the file goes.
    fn is_unmarked(&self) -> bool {
        self.byte_or(0, 0xc7) != 0xc7 || self.byte_or(1, 0x51) != 0x51
    }
}

impl fmt::Display for BadRecord<'_> {
    fn fmt<W: fmt::Write>(&self, f: &mut fmt::Formatter<W>) -> fmt::Result {
        if self.is_unmarked() {
            return write!(f, "the mark is missing");
        }
        match self.byte_or(2, 1) {
            1..=64 => write!(f, "the file ends inside a record"),
            size => write!(f, "the length byte is {size} and not 1 to 64"),
        }
    }
}

// Why a build with this factor refused a file, or a call a text, and what to do.
#[derive(Clone, Copy)]
pub struct Reason<'a> {
    pub cause: Cause,
    pub file: &'a [u8],
    pub factor: u64,
}

impl Reason<'_> {
    // Cause 2.
    fn bad_record<W: fmt::Write>(&self, f: &mut fmt::Formatter<W>, at: usize) -> fmt::Result {
        let file = self.file;
        if file.len() <= at {
            return write!(
                f,
                "the file has more than 65536 bytes; take rows out of the sheet and make the file again"
            );
        }
        let rows = Many(num_rows(file), "row");
        let record = BadRecord { file, at };
        write!(f, "at offset {at}, after {rows}, {record}; ")?;
        write!(f, "make the file again from its sheet (phrases sheet)")
    }

    // Cause 3.
    fn row_count<W: fmt::Write>(&self, f: &mut fmt::Formatter<W>, n: usize) -> fmt::Result {
        let rows = Many(n, "row");
        if n < 256 {
            return write!(
                f,
                "the file has {rows} and needs at least 256, one for each byte; add the missing ones"
            );
        }
        let more = n.wrapping_sub(4096);
        write!(f, "the file has {rows} and may have 4096; take out {more}")
    }

    // Cause 4.
    fn missing<W: fmt::Write>(&self, f: &mut fmt::Formatter<W>, byte: u8) -> fmt::Result {
        let letter = Escaped(byte);
        write!(
            f,
            "byte {byte} has no row of its own; add the row '{letter}' to the sheet"
        )
    }

    // Cause 5.
    fn equal<W: fmt::Write>(&self, f: &mut fmt::Formatter<W>, row: usize) -> fmt::Result {
        let file = self.file;
        let first = row_with(file, bytes_of(file, row));
        let row = Row { file, row };
        write!(
            f,
            "{row} stands in row {first} already; take one of the two out"
        )
    }

    // Cause 13. No two rows are equal, so the first row with the hash is the other one.
    fn clash<W: fmt::Write>(&self, f: &mut fmt::Formatter<W>, row: usize) -> fmt::Result {
        let file = self.file;
        let factor = self.factor;
        let hash = fnv::hash_bytes(bytes_of(file, row), factor);
        let other = Row {
            file,
            row: row_with_hash(file, hash, factor),
        };
        let row = Row { file, row };
        write!(f, "{row} has the hash of {other} under factor {factor}; ")?;
        write!(f, "both words may stay, take another factor")
    }

    // Cause 6: the first letter of the row that has no row above it, if there is one.
    fn no_parts<W: fmt::Write>(&self, f: &mut fmt::Formatter<W>, row: usize) -> fmt::Result {
        let file = self.file;
        let bytes = bytes_of(file, row);
        write!(f, "{} has no parts: ", Row { file, row })?;
        for byte in bytes {
            let letter = [*byte];
            let first = row_with(file, &letter);
            if row < first {
                write!(
                    f,
                    "its letter {} first stands at row {first}; ",
                    Quoted(&letter)
                )?;
                return write!(f, "move the word below its letters");
            }
        }
        write!(
            f,
            "no two rows above it that pass the pair check join to it; put its parts above it"
        )
    }
}

impl fmt::Display for Reason<'_> {
    fn fmt<W: fmt::Write>(&self, f: &mut fmt::Formatter<W>) -> fmt::Result {
        match self.cause {
            Cause::FactorZero => write!(f, "the factor is 0; take another one, as 1"),
            Cause::BadRecord(at) => self.bad_record(f, at),
            Cause::RowCount(n) => self.row_count(f, n),
            Cause::MissingByte(byte) => self.missing(f, byte),
            Cause::EqualRow(row) => self.equal(f, row as usize),
            Cause::SameHash(row) => self.clash(f, row as usize),
            Cause::NoParts(row) => self.no_parts(f, row as usize),
            Cause::TooShort => write!(f, "a buffer is too short"),
            Cause::OutOfForm => write!(f, "the tables are out of form"),
            Cause::TooLong => write!(f, "the text is over 4096 bytes"),
            Cause::UnknownCode(_) => write!(f, "there is no such row"),
            Cause::BadInterval => write!(f, "there is no such piece of the text"),
            Cause::Full(_) => write!(f, "the text is full"),
        }
    }
}
