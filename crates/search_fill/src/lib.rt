// The search area and the prefixes are filled.
#![tactic(auto)]

ghost use Rattle.std.specs.Prelude.{◌≡◌, ℕ, ◌+◌, ◌*◌, ◌<◌, ◌≤◌, length};
ghost use Rattle.marks.specs.Layout.{area_size};
ghost use Rattle.placed_rows.specs.Reading.{rows_of};
ghost use Rattle.search_fill.specs.Filled.{AreaFilled, PrefixesFilled, Filled};
ghost use Rattle.search_fill.specs.Steps.{emptied, RowIn, RowsIn, PrefixIs};

use marks::HINTS;
use placed_rows::{NONE, Rows};

// The rows' part is emptied.
fn empty(area: &mut [u32])
    requires { area_size ≤ length area.old }
    ensures { area.new ≡ emptied area.old }
{
    forest::clear(&mut area[..HINTS]);
}

// Row c goes into the rows' part.
fn add_row(rows: &Rows<'_>, area: &mut [u32], c: usize)
    requires room { area_size ≤ length area.old }
    requires row { c < rows.now.n }
    requires short { length (rows_of rows.now c) ≤ 64 }
    ensures { let r = rows.now in RowIn r.file.now r.places.now r.n area.old c area.new }
{
    forest::insert(rows, &mut area[..HINTS], c);
}

// All rows of len bytes go in.
fn add_length(rows: &Rows<'_>, area: &mut [u32], len: usize)
    requires room { area_size ≤ length area.old }
    requires short { len ≤ 64 }
    ensures { let r = rows.now in RowsIn r.file.now r.places.now r.n area.old (len * 4096)
        area.new ((len + 1) * 4096) }
{
    for c in 0..rows.n {
        if rows.length_of(c) == len {
            add_row(rows, area, c);
        }
    }
}

// The search area is filled: shorter rows first, so that the prefix of a row is there before it.
fn fill_area(rows: &Rows<'_>, area: &mut [u32])
    requires { area_size ≤ length area.old }
    ensures { let r = rows.now in AreaFilled r.file.now r.places.now r.n area.old area.new }
{
    empty(area);
    for len in 1..65 {
        add_length(rows, area, len);
    }
}

// The prefix of row c: the longest row that begins what it has before its last byte.
fn prefix_of(rows: &Rows<'_>, area: &[u32], c: usize) -> u32
    requires room { area_size ≤ length area.now }
    requires row { c < rows.now.n }
    ensures { let r = rows.now in PrefixIs r.file.now r.places.now r.n area.now c result }
{
    let bytes = rows.bytes_of(c);
    if bytes.len() == 0 {
        return NONE;
    }
    let end = bytes.len() - 1;
    let m = search_area::next_match(rows, area, &bytes[..end], 0);
    m.row
}

// The prefixes of all rows.
fn fill_prefixes(rows: &Rows<'_>, prefixes: &mut [u32], area: &[u32])
    requires room { area_size ≤ length area.now }
    requires prefixes_room { rows.now.n ≤ length prefixes.old }
    ensures { let r = rows.now in PrefixesFilled r.file.now r.places.now r.n area.now
        prefixes.old prefixes.new }
{
    for c in 0..rows.n {
        prefixes[c] = prefix_of(rows, area, c);
    }
}

// The search area and the prefixes of all rows.
pub fn fill(rows: &Rows<'_>, prefixes: &mut [u32], area: &mut [u32])
    requires n_in_bounds { (rows.now.n ≤ length prefixes.old) × (area_size ≤ length area.old) }
    ensures { let r = rows.now in Filled r.file.now r.places.now r.n prefixes.old area.old
        prefixes.new area.new }
{
    fill_area(rows, area);
    fill_prefixes(rows, prefixes, area);
}
