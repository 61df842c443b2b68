// Build: from the phrase file to the tables and the search area. What it stands on is split into small crates, because
// a must-fail edit proves its whole crate again.
#![tactic(auto)]

ghost use Rattle.std.specs.Prelude.{◌≡◌, ◌<◌, ◌≤◌, length};
ghost use Rattle.dictionary.specs.Build.{too_short, cleared, BuildIs};
ghost use Rattle.dictionary.specs.Steps.{Buildable, ClashTold, TablesFilled};
ghost use Rattle.tables.specs.Tables.{tables, lent, lent_to_fill, left};

use causes::Cause;
use marks::AREA;
use placed_rows::{NONE, Rows};
use tables::Tables;

// Whether a table has fewer than n entries, or the search area fewer than it needs.
#[tactic(auto, unfolding(crate::specs::Build::too_short))]
fn are_short(tables: &Tables<'_>, n: usize) -> bool
    ensures { result ≡ too_short (lent tables.now) n }
{
    tables.places.len() < n
        || tables.lefts.len() < n
        || tables.rights.len() < n
        || tables.prefixes.len() < n
        || tables.area.len() < AREA
}

// The first `size` entries become NONE.
fn clear(table: &mut [u32], size: usize)
    requires { size ≤ length table.old }
    ensures { table.new ≡ cleared size table.old }
{
    table[..size].fill(NONE);
}

// Why a file is refused in which `shared` is the lowest row with the hash of an earlier one: two rows are equal (5), or
// else these two are different rows with one hash (13).
fn clash_cause(rows: &Rows<'_>, shared: usize, area: &mut [u32]) -> Cause
    requires in_bounds { 16384 ≤ length area.old }
    requires shared_lt_n { shared < rows.now.n }
    ensures { let r = rows.now in ClashTold r.file.now r.places.now r.n shared area.old area.new result }
{
    match clashes::first_equal(rows, area) {
        Some(equal) => Cause::EqualRow(equal as u32),
        None => Cause::SameHash(shared as u32),
    }
}

// Fills the tables and the search area of a file that passes the checks, or refuses it by 5, 13 or 6. Rows are looked
// at byte by byte only where two have one hash, so that an accepted file needs no such look.
// Kept: no plainer: a struct of the five slices that are written needs clauses on each borrow in each method.
fn fill_tables(
    file: &[u8],
    factor: u64,
    places: &mut [u32],
    lefts: &mut [u32],
    rights: &mut [u32],
    prefixes: &mut [u32],
    area: &mut [u32],
    n: usize,
) -> Result<usize, Cause>
    requires { Buildable factor (tables file.now places.old lefts.old rights.old prefixes.old area.old) n }
    ensures { TablesFilled factor n (lent_to_fill file places lefts rights prefixes area)
        (left file places lefts rights prefixes area) result }
{
    phrase_file::fill_places(file, places);
    let rows = Rows { file, places, n };
    if let Some(shared) = clashes::first_shared(&rows, factor, area) {
        return Err(clash_cause(&rows, shared, area));
    }
    search_fill::fill(&rows, prefixes, area);
    if let Some(without) = parts::fill_parts(&rows, lefts, rights, prefixes, area) {
        return Err(Cause::NoParts(without as u32));
    }
    Ok(n)
}

// Fills the tables and the search area from a phrase file, and answers with the count of rows; or refuses the file.
// Refused by 5, 13 or 6, it leaves NONE in the tables and in the search area.
pub fn from_dictionary(
    file: &[u8],
    factor: u64,
    places: &mut [u32],
    lefts: &mut [u32],
    rights: &mut [u32],
    prefixes: &mut [u32],
    area: &mut [u32],
) -> Result<usize, Cause>
    ensures { BuildIs factor (lent_to_fill file places lefts rights prefixes area)
        (left file places lefts rights prefixes area) result }
{
    if factor == 0 {
        return Err(Cause::FactorZero);
    }
    let n = phrase_file::check_file(file)?;
    let tables = Tables {
        file,
        places,
        lefts,
        rights,
        prefixes,
        area,
    };
    if are_short(&tables, n) {
        return Err(Cause::TooShort);
    }
    match fill_tables(file, factor, places, lefts, rights, prefixes, area, n) {
        Ok(count) => Ok(count),
        Err(cause) => {
            clear(places, n);
            clear(lefts, n);
            clear(rights, n);
            clear(prefixes, n);
            clear(area, AREA);
            Err(cause)
        }
    }
}
