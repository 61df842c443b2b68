// Every refusal of interval preparation, and of the count after it. Each case lends buffers that hold a pattern, does
// both calls, and prints their answers and whether every buffer is as before. What must be printed comes from
// tools/refusals.py.
use crate::intervals::{List, Lists};
use crate::said::{Answered, kept_or_changed};
use crate::texts::with_area;
use std::io;
use tables::Tables;

// What stands in each place of a buffer before the calls: a row, but no number of a prefix of four bytes.
const PATTERN: u32 = 7;

// The buffer that is one number short for a text of four bytes.
#[derive(Clone, Copy, PartialEq)]
enum Short {
    Codes,
    Numbers,
    Ends,
    Depths,
    Work,
    Nothing,
}

// A case: how many bytes the text has, which buffer is short, how many entries of the search area are lent (the tables
// are out of form with fewer than 16,384), where the piece from 3 ends.
#[derive(Clone, Copy)]
struct Case(usize, Short, usize, usize);

const CASES: [Case; 11] = [
    Case(4, Short::Nothing, 16384, 4),
    Case(4097, Short::Nothing, 16384, 4),
    Case(4, Short::Codes, 16384, 4),
    Case(4, Short::Numbers, 16384, 4),
    Case(4, Short::Ends, 16384, 4),
    Case(4, Short::Depths, 16384, 4),
    Case(4, Short::Work, 16384, 4),
    Case(4, Short::Nothing, 16383, 4),
    Case(4, Short::Nothing, 16383, 2),
    Case(4, Short::Work, 16383, 2),
    Case(4097, Short::Work, 16383, 2),
];

// Lists that hold the pattern, one of them short.
fn patterns(short: Short) -> Lists {
    let lend = |list: Short, few: usize| List::new(PATTERN, if list == short { few } else { 8 });
    Lists {
        last_codes: lend(Short::Codes, 3),
        numbers: lend(Short::Numbers, 4),
        ends: lend(Short::Ends, 4),
        depths: lend(Short::Depths, 4),
        work: lend(Short::Work, 3),
    }
}

// Whether nothing was written to the lists.
fn are_kept(lists: &Lists) -> bool {
    let all = [
        &lists.last_codes,
        &lists.numbers,
        &lists.ends,
        &lists.depths,
        &lists.work,
    ];
    all.iter()
        .all(|list| list.lent().iter().all(|number| *number == PATTERN))
}

// Prepares a text, and counts its piece from 3 to a place.
fn try_case(rt: &impl Print, tables: &Tables<'_>, case: Case) -> io::Result<()> {
    let Case(bytes, short, entries, end) = case;
    let ones = [1; 4097];
    let text = ones.get(..bytes).unwrap_or(&ones);
    let tables = with_area(tables, entries);
    let mut lists = patterns(short);
    let prepared = Answered(lists.prepare(&tables, text));
    let counted = Answered(lists.count(&tables, text, 3, end));
    let left = kept_or_changed(are_kept(&lists));
    let number = short as u8;
    print!(rt; "bytes {bytes} {number} {entries} {end}: ")?;
    println!(rt; "prepare {prepared}, count {counted}, {left}")
}

// All cases, over texts of ones.
pub(crate) fn say_refusals(rt: &impl Print, tables: &Tables<'_>) -> io::Result<()> {
    println!(rt; "intervals: bytes, short buffer, search area, end")?;
    for case in CASES {
        try_case(rt, tables, case)?;
    }
    Ok(())
}
