// The pair check: whether two codes may stand beside each other. A row counts only below the number of rows whose parts
// are known, so that the check holds in the middle of a build too. Two codes whose seam no row has pass at once:
// undoing keeps the two bytes at the seam, so a join on the way would have it. The row that the search area names for
// two codes is asked whether they are its parts, so that a wrong name costs time and no answer depends on it.
#![tactic(auto)]

ghost use Rattle.std.specs.Prelude.{◌≡◌, ◌≤◌, ◌<◌, length, ltb, eqb, ◌||◌};
ghost use Rattle.marks.specs.Layout.{seams, area_size};
ghost use Rattle.marks.specs.Marks.{marked};
ghost use Rattle.pair_check.specs.Pair.{pair_hash, pair_key, hint_place, row_below, seam_bit, seam_key, first_byte};
ghost use Rattle.pair_check.specs.Pair.{last_byte};
ghost use Rattle.pair_check.specs.Pair.{listed_in, JoinReady, JoinIs, SeamReady, PairReady, PairIs};
ghost use Rattle.pair_check.specs.Pair.{PassIs};
ghost use Rattle.tables.specs.Tables.{pair_given};

use marks::{HINTS, PAIRS, SEAMS};
use placed_rows::NONE;
use tables::RowTables;

// A number of 32 bits for two codes.
fn pair_hash(left: u32, right: u32) -> u64
    ensures { result ≡ pair_hash left right }
{
    let pair = (left % 4096) as u64 * 4096 + (right % 4096) as u64;
    pair * 2654435769 % 4294967296
}

// The key of two codes among the marks of pairs.
pub fn pair_key(left: u32, right: u32) -> usize
    ensures { result ≡ pair_key left right }
{
    (pair_hash(left, right) / 4096) as usize
}

// Whether row c is below `bound` and has the two as its parts; a one-byte row, which has itself twice, has none.
fn is_listed_before(tables: &RowTables<'_>, c: u32, bound: u32, left: u32, right: u32) -> bool
    requires { (bound ≤ length tables.now.lefts.now) × (bound ≤ length tables.now.rights.now) }
    ensures { result ≡ listed_in tables.now.lefts.now tables.now.rights.now c bound left right }
{
    if bound <= c {
        return false;
    }
    let i = c as usize;
    if tables.lefts[i] != left {
        return false;
    }
    if c <= left {
        return false;
    }
    tables.rights[i] == right
}

// The hint that may name the row that has the two as its parts.
pub fn hint_place(left: u32, right: u32) -> usize
    ensures { result ≡ hint_place left right }
{
    (pair_hash(left, right) * 4608 / 4294967296) as usize
}

// A hint: two of them are the halves of one number. Nothing is promised of it.
fn hint_at(area: &[u32], place: usize) -> u32
    requires { (place < 4608) × (area_size ≤ length area.now) }
{
    (area[HINTS + place / 2] >> (place % 2 * 16)) % 65536
}

// The row if it is below the bound, else NONE.
fn row_below(row: u32, bound: u32) -> u32
    ensures { result ≡ row_below row bound }
{
    if row < bound { row } else { NONE }
}

// The row below `bound` that has the two as its parts, or NONE, `limit` being the number of rows whose parts are
// known. Where the row that the search area names does not have them as its parts, their join is looked up.
#[inline(never)]
fn look_up(tables: &RowTables<'_>, limit: u32, bound: u32, left: u32, right: u32) -> u32
    requires { JoinReady (pair_given tables.now) tables.now.rows.n limit bound left right }
    ensures { JoinIs (pair_given tables.now) tables.now.rows.n limit bound left right result }
{
    let hint = hint_at(tables.area, hint_place(left, right));
    if is_listed_before(tables, hint, limit, left, right) {
        return row_below(hint, bound);
    }
    let combined = search_area::join(&tables.rows, tables.area, left, right);
    if is_listed_before(tables, combined, bound, left, right) {
        return combined;
    }
    NONE
}

// The same row: two that are not marked are the parts of none.
// Kept: no plainer: callers compare it with codes of a text and with NONE, and JoinIs (a definition) says none so.
#[inline(always)]
pub fn join_before(tables: &RowTables<'_>, limit: u32, bound: u32, left: u32, right: u32) -> u32
    requires { JoinReady (pair_given tables.now) tables.now.rows.n limit bound left right }
    ensures { JoinIs (pair_given tables.now) tables.now.rows.n limit bound left right result }
{
    if !marks::is_marked(tables.area, PAIRS, pair_key(left, right)) {
        return NONE;
    }
    look_up(tables, limit, bound, left, right)
}

// Whether a longer left code is undone before the right one, whose left part is `part`: it is higher, or the right
// one is a single byte.
fn is_undone_first(left: u32, right: u32, part: u32) -> bool
    ensures { result ≡ ltb right left || eqb part right }
{
    right < left || part == right
}

// The pair check over the rows below `limit`, for two of them.
pub fn is_valid_pair_by_parts(tables: &RowTables<'_>, limit: u32, token1: u32, token2: u32) -> bool
    requires { PairReady (pair_given tables.now) tables.now.rows.n limit token1 token2 }
    ensures { PairIs (pair_given tables.now) tables.now.rows.n limit token1 token2 result }
{
    let mut left = token1;
    let mut right = token2;
    let mut bound = limit;
    loop {
        if join_before(tables, limit, bound, left, right) != NONE {
            return false;
        }
        // Undo the higher one, or the other where that is a single byte.
        let left_part = tables.rights[left as usize];
        let right_part = tables.lefts[right as usize];
        if left_part == left {
            if right_part == right {
                return true;
            }
            bound = right + 1;
            right = right_part;
            continue;
        }
        if is_undone_first(left, right, right_part) {
            bound = left;
            left = left_part;
            continue;
        }
        bound = right + 1;
        right = right_part;
    }
}

// The seam of two bytes, one of 16,384.
fn seam_bit(a: u8, b: u8) -> usize
    ensures { result ≡ seam_bit a b }
{
    (a as usize * 97 + b as usize) % 16384
}

// The key of a seam among the marks of seams.
pub fn seam_key(a: u8, b: u8) -> usize
    ensures { result ≡ seam_key a b }
{
    let seam = seam_bit(a, b);
    seam / 32 * 1024 + seam % 32 * 33
}

// Whether the seam of two bytes is marked: if not, no row has a left part that ends in a and a right part that begins
// with b.
pub fn may_join(area: &[u32], a: u8, b: u8) -> bool
    requires { area_size ≤ length area.now }
    ensures { result ≡ marked area.now seams (seam_key a b) }
{
    let seam = seam_bit(a, b);
    marks::is_bit_marked(area, SEAMS, seam / 32, seam % 32)
}

// Whether the seam of two rows is marked.
fn may_meet(tables: &RowTables<'_>, left: u32, right: u32) -> bool
    requires { let t = tables.now in SeamReady t.rows.file.now t.rows.places.now t.area.now t.rows.n left right }
    ensures { result ≡ marked tables.now.area.now seams (seam_key (last_byte tables.now.rows.file.now left)
        (first_byte tables.now.rows.file.now right)) }
{
    let before = tables.rows.bytes_of(left as usize);
    let after = tables.rows.bytes_of(right as usize);
    may_join(tables.area, before[before.len() - 1], after[0])
}

// The pair check over the rows below `limit`, for two of them: they pass where their seam is not marked.
pub fn is_valid_pair(tables: &RowTables<'_>, limit: u32, token1: u32, token2: u32) -> bool
    requires { PairReady (pair_given tables.now) tables.now.rows.n limit token1 token2 }
    ensures { PassIs (pair_given tables.now) tables.now.rows.n limit token1 token2 result }
{
    if !may_meet(tables, token1, token2) {
        return true;
    }
    is_valid_pair_by_parts(tables, limit, token1, token2)
}
