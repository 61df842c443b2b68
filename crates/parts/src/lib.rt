// The parts of the rows, found row by row over the rows before.
#![tactic(auto)]

ghost use Rattle.std.specs.Prelude.{◌≡◌, ◌≤◌, ◌<◌, length};
ghost use Rattle.marks.specs.Layout.{area_size};
ghost use Rattle.parts.specs.Parts.{Looking, Beginner, PrefixesFound, PartsFit};
ghost use Rattle.parts.specs.Found.{RightPart, PartsFound, FilledUpTo};
ghost use Rattle.parts.specs.Marking.{PairsEmptied, Named, WriteFit, PartsWritten, SeamFit, SeamWritten};
ghost use Rattle.tables.specs.Tables.{pair_given};

use marks::{AREA, HINTS, PAIRS, SEAMS};
use placed_rows::{NONE, Rows};
use tables::RowTables;

// The left and the right part of a row.
#[derive(Clone, Copy)]
struct TokenParts {
    left: u32,
    right: u32,
}

// The rest of row w beyond its beginning `left`, if the two are its parts.
fn right_part(tables: &RowTables<'_>, w: u32, left: u32) -> Option<u32>
    requires looking { Looking (pair_given tables.now) tables.now.rows.n w }
    requires beginner { let r = tables.now.rows in Beginner r.file.now r.places.now r.n w left }
    ensures { RightPart tables.now.rows.file.now w left result }
{
    let bytes = tables.rows.bytes_of(w as usize);
    let from = tables.rows.length_of(left as usize);
    let right = search_area::find(&tables.rows, tables.area, &bytes[from..]);
    if w <= left {
        return None;
    }
    if w <= right {
        return None;
    }
    pair_check::is_valid_pair_by_parts(tables, w, left, right).then_some(right)
}

// The parts of row w: a one-byte row has itself twice; for a longer one the rows that begin it are tried, longest
// first.
fn find_parts(tables: &RowTables<'_>, w: u32) -> Option<TokenParts>
    requires looking { Looking (pair_given tables.now) tables.now.rows.n w }
    requires prefixes_found { let r = tables.now.rows in PrefixesFound r.file.now r.places.now
        tables.now.prefixes.now r.n }
    ensures { PartsFound tables.now.rows.file.now w result }
{
    let row = w as usize;
    if tables.rows.length_of(row) == 1 {
        return Some(TokenParts { left: w, right: w });
    }
    let mut left = tables.prefixes[row];
    // Kept: C interface: the tables that callers lend say none by a number.
    while left != NONE {
        if let Some(right) = right_part(tables, w, left) {
            return Some(TokenParts { left, right });
        }
        left = tables.prefixes[left as usize];
    }
    None
}

// The hints and the marks become NONE: no row is named, and no seam and no pair is marked.
fn empty_pairs(area: &mut [u32])
    requires { area_size ≤ length area.old }
    ensures { PairsEmptied area.old area.new }
{
    area[HINTS..AREA].fill(NONE);
}

// A number of two hints with row w as one of them, the lower where `which` is 0, unless another row is named there.
// Nothing is promised of it: a wrong hint costs time, and no answer depends on it.
fn with_row(number: u32, which: usize, w: usize) -> u32
    requires { w < 65535 }
{
    let less = 65535 - w as u32;
    if which == 0 {
        if number % 65536 == 65535 {
            return number - less;
        }
        return number;
    }
    if number / 65536 == 65535 {
        return number - less * 65536;
    }
    number
}

// Names row w as the one that has the two as its parts, unless another row is named at that place.
fn name_row(area: &mut [u32], w: usize, left: u32, right: u32)
    requires { (w < 65535) × (area_size ≤ length area.old) }
    ensures { Named area.old area.new }
{
    let place = pair_check::hint_place(left, right);
    let at = HINTS + place / 2;
    area[at] = with_row(area[at], place % 2, w);
}

// Writes the parts of row w into the tables; where the row is a longer one, it is named for the two, and they are
// marked.
fn write_parts(
    lefts: &mut [u32],
    rights: &mut [u32],
    area: &mut [u32],
    w: usize,
    left: u32,
    right: u32,
)
    requires { WriteFit lefts.old rights.old area.old w }
    ensures { PartsWritten lefts.old rights.old area.old w left right
        lefts.new rights.new area.new }
{
    lefts[w] = left;
    rights[w] = right;
    if w <= left as usize {
        return;
    }
    name_row(area, w, left, right);
    marks::mark(area, PAIRS, pair_check::pair_key(left, right));
}

// Marks the seam of row w, if it is a longer one: its last byte within the left part, and the next one.
fn mark_seam(rows: &Rows<'_>, area: &mut [u32], w: usize, left: u32)
    requires { let r = rows.now in SeamFit r.file.now r.places.now area.old r.n w left }
    ensures { SeamWritten rows.now.file.now area.old w left area.new }
{
    let part = left as usize;
    if w <= part {
        return;
    }
    let bytes = rows.bytes_of(w);
    let cut = rows.length_of(part);
    marks::mark(
        area,
        SEAMS,
        pair_check::seam_key(bytes[cut - 1], bytes[cut]),
    );
}

// Writes the parts of the rows into the tables, marks the pairs and the seams of the longer ones in the search area,
// and says which row is the lowest without parts, if one has none.
pub fn fill_parts(
    rows: &Rows<'_>,
    lefts: &mut [u32],
    rights: &mut [u32],
    prefixes: &[u32],
    area: &mut [u32],
) -> Option<usize>
    requires { let r = rows.now in PartsFit r.file.now r.places.now lefts.old rights.old
        prefixes.now area.old r.n }
    ensures { FilledUpTo rows.now.file.now lefts.old rights.old area.old
        lefts.new rights.new area.new rows.now.n result }
{
    empty_pairs(area);
    for w in 0..rows.n {
        let tables = RowTables {
            rows: *rows,
            lefts,
            rights,
            prefixes,
            area,
        };
        let Some(parts) = find_parts(&tables, w as u32) else {
            return Some(w);
        };
        write_parts(lefts, rights, area, w, parts.left, parts.right);
        mark_seam(rows, area, w, parts.left);
    }
    None
}
