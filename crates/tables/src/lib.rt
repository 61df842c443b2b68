// Whether dictionary tables are in form, as document 01 defines it, and the calls that need no more than that. No more
// is asked than it says: a prefix need not begin its row, and equal or clashing rows are in form.
#![tactic(auto)]

ghost use Rattle.std.specs.Prelude.{◌≡◌, ◌<◌};
ghost use Rattle.tables.specs.Tables.{lent};
ghost use Rattle.tables.specs.InForm.{all_below, prefix_in_form, parts_in_form, row_in_form};
ghost use Rattle.tables.specs.Formed.{FormIs};
ghost use Rattle.tables.specs.Answers.{NumTokens, TokenLen};
ghost use Rattle.tables.specs.Steps.{Passed, PlacesMatch, RowOf, Room, sized};

mod row_tables;
mod tables;

use causes::Cause;
use marks::AREA;
use placed_rows::{NONE, Rows};
pub use row_tables::RowTables;
pub use tables::Tables;

// Whether the places match the file; if so, sizes gets the lengths of the rows.
fn places_match(tables: &Tables<'_>, n: usize, sizes: &mut [u8; 4096]) -> bool
    requires { Passed tables.now.file.now tables.now.places.now n sizes.old }
    ensures { PlacesMatch tables.now.file.now tables.now.places.now n sizes.new result }
{
    let mut at = 0;
    for row in 0..n {
        // The length byte is read at the table's place, so that no read has to wait for the one before it.
        let place = tables.places[row] as usize;
        if tables.file.len() <= place + 2 {
            return false;
        }
        let size = tables.file[place + 2];
        if place != at {
            return false;
        }
        sizes[row] = size;
        at = at + 3 + size as usize;
    }
    true
}

// Whether the prefix p of row i is none or a shorter row.
fn prefix_in_form(sizes: &[u8; 4096], n: usize, i: usize, p: u32) -> bool
    requires { RowOf n i }
    ensures { result ≡ prefix_in_form n (sized sizes.now) i p }
{
    let prefix = p as usize;
    if n <= prefix {
        // Kept: C interface: the tables that callers lend say none by a number.
        return p == NONE;
    }
    sizes[prefix] < sizes[i]
}

// Whether the parts l and r of row i are the row twice (one byte) or two lower rows whose lengths add up.
fn parts_in_form(sizes: &[u8; 4096], i: usize, l: u32, r: u32) -> bool
    requires { i < 4096 }
    ensures { result ≡ parts_in_form (sized sizes.now) i l r }
{
    let left = l as usize;
    let right = r as usize;
    if left < i {
        if i <= right {
            return false;
        }
        return sizes[left] as usize + sizes[right] as usize == sizes[i] as usize;
    }
    if left != i {
        return false;
    }
    if right != i {
        return false;
    }
    sizes[i] == 1
}

// Whether prefix and parts of each row are in form.
fn rows_fit(sizes: &[u8; 4096], tables: &Tables<'_>, n: usize) -> bool
    requires { let t = tables.now in Room n t.lefts.now t.rights.now t.prefixes.now }
    ensures { let t = tables.now in result ≡ all_below n (row_in_form n (sized sizes.now)
        t.lefts.now t.rights.now t.prefixes.now) }
{
    for i in 0..n {
        if !parts_in_form(sizes, i, tables.lefts[i], tables.rights[i]) {
            return false;
        }
        if !prefix_in_form(sizes, n, i, tables.prefixes[i]) {
            return false;
        }
    }
    true
}

// The same tables with their rows if they are in form.
pub fn in_form<'a>(tables: &Tables<'a>) -> Option<RowTables<'a>>
    ensures { FormIs (lent tables.now) result }
{
    let n = phrase_file::check_file(tables.file).ok()?;
    if tables.places.len() < n {
        return None;
    }
    if tables.lefts.len() < n {
        return None;
    }
    if tables.rights.len() < n {
        return None;
    }
    if tables.prefixes.len() < n {
        return None;
    }
    if tables.area.len() < AREA {
        return None;
    }
    let mut sizes = [0; 4096];
    if !places_match(tables, n, &mut sizes) {
        return None;
    }
    if !rows_fit(&sizes, tables, n) {
        return None;
    }
    let rows = Rows {
        file: tables.file,
        places: tables.places,
        n,
    };
    Some(RowTables {
        rows,
        lefts: tables.lefts,
        rights: tables.rights,
        prefixes: tables.prefixes,
        area: tables.area,
    })
}

// The count of rows.
pub fn num_tokens(tables: &Tables<'_>) -> Result<usize, Cause>
    ensures { NumTokens (lent tables.now) result }
{
    let rows = in_form(tables).ok_or(Cause::OutOfForm)?.rows;
    Ok(rows.n)
}

// The number of bytes of a row.
pub fn token_len(tables: &Tables<'_>, token: u32) -> Result<usize, Cause>
    ensures { TokenLen (lent tables.now) token result }
{
    let tables = in_form(tables).ok_or(Cause::OutOfForm)?;
    let row = token as usize;
    if tables.rows.n <= row {
        return Err(Cause::UnknownCode(0));
    }
    Ok(tables.rows.length_of(row))
}
