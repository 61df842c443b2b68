// `phrases why FILE ROW ROW`
use crate::sending::{Numbers, sent, told};
use byte_pair_encoding::is_valid_token_pair;
use decoder::decode_tokens;
use file_commands::{Dictionary, load};
use phrase_file::num_rows;
use std::fmt;
use std::rt::Files;
use tables::Tables;
use tool_io::{Codes, Many, Quoted, Row, Stop, argument_error, refused};
use words::{front, number};

// A row and its parts.
#[derive(Clone, Copy)]
struct Parts<'a> {
    tables: Tables<'a>,
    row: usize,
}

impl fmt::Display for Parts<'_> {
    fn fmt<W: fmt::Write>(&self, f: &mut fmt::Formatter<W>) -> fmt::Result {
        let tables = self.tables;
        let file = tables.file;
        let left = tables.lefts.get(self.row).copied().unwrap_or(0) as usize;
        let right = tables.rights.get(self.row).copied().unwrap_or(0) as usize;
        let row = Row {
            file,
            row: self.row,
        };
        if left == self.row {
            return write!(f, "{row} is a single byte");
        }
        let (left, right) = (Row { file, row: left }, Row { file, row: right });
        write!(f, "{row} is {left} and {right}")
    }
}

// How the bytes of two rows are sent.
fn say_instead(rt: &impl Print, tables: &Tables<'_>, pair: &[u32]) -> Result<(), Stop> {
    let mut bytes = [0u8; 128];
    let size = told(rt, decode_tokens(tables, pair, &mut bytes), tables.file)?;
    let joined = front(&bytes, size);
    let mut codes: Numbers = [0; 4096];
    let codes = sent(rt, tables, joined, &mut codes)?;
    let (joined, codes) = (Quoted(joined), Codes(codes));
    println!(rt; "{joined} is sent as {codes}")?;
    Ok(())
}

// The row number of an argument; one of more than 32 bits is none, which is no row.
fn row_number(rt: &impl Print, argument: &[u8]) -> Result<u32, Stop> {
    match number(argument) {
        Some(value) => Ok(u32::try_from(value).unwrap_or(u32::MAX)),
        None => Err(argument_error(rt, "ROW", argument, "it is no number")),
    }
}

// The command. Not inlined into the one that runs all: its tables take stack only while it runs.
#[inline(never)]
pub(crate) fn why(
    rt: &(impl Files + Print),
    file: &[u8],
    left: &[u8],
    right: &[u8],
) -> Result<(), Stop> {
    let mut dictionary = Dictionary::blank();
    load(rt, file, &mut dictionary)?;
    let left = row_number(rt, left)?;
    let right = row_number(rt, right)?;
    let tables = dictionary.tables();
    let passes = match is_valid_token_pair(&tables, left, right) {
        Ok(passes) => passes,
        Err(cause) => {
            let rows = Many(num_rows(tables.file), "row");
            let reason = format_args!("there is no such row: the file has {rows}, numbered from 0");
            return Err(refused(rt, cause, reason));
        }
    };
    let first = Parts {
        tables,
        row: left as usize,
    };
    let second = Parts {
        tables,
        row: right as usize,
    };
    println!(rt; "{first}\n{second}")?;
    if passes {
        println!(rt; "they may stand beside each other\nresult: passes left={left} right={right}")?;
        return Ok(());
    }
    print!(rt; "they may not stand beside each other: ")?;
    say_instead(rt, &tables, &[left, right])?;
    println!(rt; "result: fails left={left} right={right}")?;
    Ok(())
}
