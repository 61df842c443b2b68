// Lookups in the search area. They are safe and end on any contents of the area; they are right where the area finds
// every row. They are lent the whole area and a place of the text, since a slice that is made and handed on costs more
// than the look-up. The first row at a place is that of its byte, and for this `Finds` says that each byte has a row.
// None gives the rows that end at a place, which the Rust's table encoder asks for: the end code is found by joins
// (`end_code`).
#![tactic(auto)]

ghost use Rattle.std.specs.Prelude.{◌≡◌, ℕ, ◌+◌, ◌<◌, ◌≤◌, length, drop};
ghost use Rattle.marks.specs.Layout.{area_size};
ghost use Rattle.theory.specs.Dictionary.{none};
ghost use Rattle.search_area.specs.Answers.{NextMatch, LongerMatch, FirstMatch, Found, Joined};

use placed_rows::{Match, NONE, Rows};

// The longest row that begins the text from at on, with its length, or NONE and 0.
pub fn next_match(rows: &Rows<'_>, area: &[u32], text: &[u8], at: usize) -> Match
    requires area_size_in_bounds { (area_size ≤ length area.now) × (at ≤ length text.now) }
    ensures { let r = rows.now in NextMatch r.file.now r.places.now r.n area.now
        (drop at text.now) result.row result.len }
{
    forest::longest(rows, area, text, at)
}

// The shortest row that begins the text from at on, with its length, or NONE: each byte is a row.
pub fn first_match(rows: &Rows<'_>, area: &[u32], text: &[u8], at: usize) -> Match
    requires area_size_in_bounds { (area_size ≤ length area.now) × (at ≤ length text.now) }
    ensures { let r = rows.now in FirstMatch r.file.now r.places.now r.n area.now
        (drop at text.now) result.row result.len }
{
    if text.len() <= at {
        return Match { row: NONE, len: 0 };
    }
    Match {
        row: forest::byte_row(rows, area, text[at]),
        len: 1,
    }
}

// The shortest row that begins the text from at on and is longer than row, of len bytes, which begins it too, with
// its length, or NONE.
pub fn longer_match(
    rows: &Rows<'_>,
    area: &[u32],
    row: u32,
    len: usize,
    text: &[u8],
    at: usize,
) -> Match
    requires row_lt_n { (row < rows.now.n) × ((area_size ≤ length area.now) × (at + len ≤ length text.now)) }
    ensures { let r = rows.now in LongerMatch r.file.now r.places.now r.n area.now
        (drop at text.now) row len result.row result.len }
{
    forest::child(rows, area, row, len, text, at + len)
}

// The row with these bytes, or NONE.
// Kept: no plainer: build writes row or NONE into its tables as it is, and Found (a definition) says none so.
pub fn find(rows: &Rows<'_>, area: &[u32], bytes: &[u8]) -> u32
    requires area_size_in_bounds { area_size ≤ length area.now }
    ensures { let r = rows.now in Found r.file.now r.places.now r.n area.now bytes.now result }
{
    let m = forest::longest(rows, area, bytes, 0);
    let r = m.row;
    let l = m.len;
    if l == bytes.len() { r } else { NONE }
}

// The row with the bytes of row x followed by those of row y, or NONE.
// Kept: no plainer: Joined (a definition) is Found at the joined bytes.
pub fn join(rows: &Rows<'_>, area: &[u32], x: u32, y: u32) -> u32
    requires area_size_in_bounds { (area_size ≤ length area.now) × ((x < rows.now.n) × (y < rows.now.n)) }
    ensures { let r = rows.now in Joined r.file.now r.places.now r.n area.now x y result }
{
    let a = rows.length_of(x as usize);
    let bytes = rows.bytes_of(y as usize);
    let m = forest::descend(rows, area, x, a, bytes, 0);
    let r = m.row;
    let l = m.len;
    if l == a + bytes.len() { r } else { NONE }
}
