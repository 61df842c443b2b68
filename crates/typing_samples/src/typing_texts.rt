// Typed texts against `count` of what the typed bytes read.
use crate::said::{Tally, name_of};
use crate::texts::{put, reading};
use causes::Cause;
use std::io;
use tables::Tables;
use typing_columns::{Columns, Side};

// P4 and P5: the first four numbers.
pub(crate) fn say_samples(rt: &impl Print, tables: &Tables<'_>) -> io::Result<()> {
    let mut counts = [0; 4];
    typing::type_text(tables, Side::Append, b"abcd", &mut counts);
    let [a, b, c, d] = counts;
    println!(rt; "P4 append: {a} {b} {c} {d}")?;
    typing::type_text(tables, Side::Prepend, b"dcba", &mut counts);
    let [a, b, c, d] = counts;
    println!(rt; "P5 prepend d, c, b, a: {a} {b} {c} {d}")
}

// A text typed on one side, byte by byte into records and in pieces over columns.
pub(crate) fn say_side(
    rt: &impl Print,
    side: Side,
    tables: &Tables<'_>,
    text: &[u8],
) -> io::Result<()> {
    let name = name_of(side);
    let tally = by_bytes(side, tables, text);
    println!(rt; "{name} byte by byte: {tally}")?;
    let tally = by_pieces(side, tables, text, |_| 0);
    println!(rt; "{name} in pieces: {tally}")?;
    let tally = by_pieces(side, tables, text, |size| size / 2);
    println!(rt; "{name} in pieces, halves taken back: {tally}")
}

// `count` of what typed bytes read.
fn count_typed(side: Side, tables: &Tables<'_>, typed: &[u8]) -> Result<usize, Cause> {
    let mut work = [0; 4096];
    let mut room = [0; 4096];
    byte_pair_encoding::count(tables, reading(side, typed, &mut room), &mut work)
}

// Types a text, one byte after the other, into records, and compares the count after each. Not inlined, as the other
// functions with large arrays: each then takes stack only while it runs.
#[inline(never)]
fn by_bytes(side: Side, tables: &Tables<'_>, text: &[u8]) -> Tally {
    let mut tally = Tally::default();
    let mut counts = [0; 4096];
    let end = typing::type_text(tables, side, text, &mut counts);
    for (place, count) in counts.iter().take(end).enumerate() {
        let typed = text.get(..place + 1).unwrap_or(text);
        tally.compare(Ok(*count as usize), count_typed(side, tables, typed));
    }
    tally
}

// Types a text in pieces of 1, 2, 3, .. bytes, and compares the count after each. After a piece so many of its bytes
// are taken back before the next one. The bytes typed so far are kept in a book of our own.
#[inline(never)]
fn by_pieces<F: Fn(usize) -> usize>(
    side: Side,
    tables: &Tables<'_>,
    text: &[u8],
    taken_back: F,
) -> Tally
    requires { F.IsAlwaysCallable taken_back }
{
    let mut tally = Tally::default();
    let mut columns = Columns::blank();
    let mut book = [0; 4096];
    let mut len = 0;
    let mut left = text;
    for size in 1..=text.len() {
        if left.is_empty() {
            break;
        }
        let (piece, others) = left.split_at(size.min(left.len()));
        left = others;
        let extended = columns.extend(tables, side, len, 4096, piece);
        len = put(&mut book, len, piece);
        let counted = extended.and_then(|end| columns.token_count(tables, side, end, 4096));
        let typed = book.get(..len).unwrap_or(&book);
        tally.compare(counted, count_typed(side, tables, typed));
        len = len.saturating_sub(taken_back(size));
    }
    tally
}
