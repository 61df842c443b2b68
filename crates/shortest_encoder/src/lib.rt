// The fewest codes of a text, and the longest row at each place: the cores of `encode_minimal` and `encode_greedy`. An
// entry of the work buffer has the count of codes, 64 minus the row's length and the row, in this order, so that the
// least entry of a place is the one that document 01 wants of a tie.
#![tactic(auto)]

ghost use Rattle.std.specs.Prelude.{◌≡◌, ◌≤◌, ◌<◌, length, drop};
ghost use Rattle.marks.specs.Layout.{area_size};
ghost use Rattle.search_area.specs.Answers.{NextMatch};
ghost use Rattle.shortest_encoder.specs.Encoders.{EntriesReady, MinimalReady, MinimalIs, GreedyReady, GreedyIs};
ghost use Rattle.shortest_encoder.specs.Entries.{entry_of, count_from, EntryReady, EntryIs, Entries, CodesReady};
ghost use Rattle.shortest_encoder.specs.Entries.{CodesRead};

use placed_rows::{Match, NONE};
use search_area::{first_match, longer_match};
use tables::RowTables;

// The entry of count codes, the first of which is row, of len bytes. Of two entries of a place the lesser one has
// fewer codes, or as many and the longer row.
// Kept: no heap: the entries stand in the work buffer that a caller lends, one number each.
fn entry_of(count: u32, len: usize, row: u32) -> u32
    requires { (count < 16384) × ((0 < len) × ((len ≤ 64) × (row < 4096))) }
    ensures { result ≡ entry_of count len row }
{
    count * 262144 + (64 - len) as u32 * 4096 + row
}

// The number of codes behind a row that ends at place end, by the entry of that place.
fn codes_behind(text: &[u8], work: &[u32], end: usize) -> u32
    requires { length text.now ≤ length work.now }
    ensures { result ≡ count_from work.now (length text.now) end }
{
    if end < text.len() {
        work[end] / 262144
    } else {
        0
    }
}

// The entry of place i. The rows at the place are tried, shortest first, and the least entry of them is kept.
fn best_at(tables: &RowTables<'_>, text: &[u8], i: usize, work: &[u32]) -> u32
    requires { let r = tables.now.rows in EntryReady r.file.now r.places.now tables.now.area.now r.n
        text.now work.now i }
    ensures { let r = tables.now.rows in EntryIs r.file.now r.places.now tables.now.area.now r.n
        text.now work.now i result }
{
    let first = first_match(&tables.rows, tables.area, text, i);
    if first.row == NONE {
        // Never on the tables of a build: each byte has a row.
        return 0;
    }
    let mut row = first.row;
    let mut len = first.len;
    let mut best = entry_of(codes_behind(text, work, i + len) + 1, len, row);
    while i + len < text.len() {
        let longer = longer_match(&tables.rows, tables.area, row, len, text, i);
        if longer.row == NONE {
            return best;
        }
        if longer.len > 64 {
            // Never on the tables of a build: no row is so long.
            return best;
        }
        row = longer.row;
        len = longer.len;
        let count = codes_behind(text, work, i + len) + 1;
        let entry = entry_of(count, len, row);
        best = best.min(entry);
    }
    best
}

// The entries of all places, from the last one on.
fn fill_entries(tables: &RowTables<'_>, text: &[u8], work: &mut [u32])
    requires { let r = tables.now.rows in EntriesReady r.file.now r.places.now tables.now.area.now r.n
        text.now work.old }
    ensures { let r = tables.now.rows in Entries r.file.now r.places.now tables.now.area.now r.n
        text.now work.old work.new }
{
    for i in (0..text.len()).rev() {
        let entry = best_at(tables, text, i, work);
        work[i] = entry;
    }
}

// The codes of the entries, from the first place on, into out, and how many. Each entry says how many bytes its row
// has.
fn read_codes(text: &[u8], work: &[u32], out: &mut [u32]) -> usize
    requires { CodesReady text.now work.now out.old }
    ensures { CodesRead text.now work.now out.old out.new result }
{
    let mut place = 0;
    let mut count = 0;
    while place < text.len() {
        let entry = work[place];
        let code = entry % 4096;
        out[count] = code;
        count += 1;
        place += 64 - (entry / 4096 % 64) as usize;
    }
    count
}

// The fewest codes of the text into out, and how many: entries from the right, then the codes from the left.
pub fn encode_minimal_core(
    tables: &RowTables<'_>,
    text: &[u8],
    out: &mut [u32],
    work: &mut [u32],
) -> usize
    requires { let r = tables.now.rows in MinimalReady r.file.now r.places.now tables.now.area.now r.n
        text.now out.old work.old }
    ensures { let r = tables.now.rows in MinimalIs r.file.now r.places.now tables.now.area.now r.n
        text.now out.old out.new work.old work.new result }
{
    fill_entries(tables, text, work);
    read_codes(text, work, out)
}

// The longest row that begins the text from at on, with its length, or NONE and 0. The rows are met, shortest first,
// until none is longer or the text ends.
// Kept: slower, 49 us for a text of 4,096 bytes by next_match, which finds the same row, and 41 us by these look-ups.
fn longest_at(tables: &RowTables<'_>, text: &[u8], at: usize) -> Match
    requires area_size_in_bounds { (area_size ≤ length tables.now.area.now) × (at ≤ length text.now) }
    ensures { let r = tables.now.rows in NextMatch r.file.now r.places.now r.n tables.now.area.now
        (drop at text.now) result.row result.len }
{
    let first = first_match(&tables.rows, tables.area, text, at);
    if first.row == NONE {
        return Match { row: NONE, len: 0 };
    }
    let mut row = first.row;
    let mut len = first.len;
    while at + len < text.len() {
        let longer = longer_match(&tables.rows, tables.area, row, len, text, at);
        if longer.row == NONE {
            return Match { row, len };
        }
        row = longer.row;
        len = longer.len;
    }
    Match { row, len }
}

// The longest row at each place into out, and how many.
pub fn encode_greedy_core(tables: &RowTables<'_>, text: &[u8], out: &mut [u32]) -> usize
    requires { let r = tables.now.rows in GreedyReady r.file.now r.places.now tables.now.area.now r.n
        text.now out.old }
    ensures { let r = tables.now.rows in GreedyIs r.file.now r.places.now tables.now.area.now r.n
        text.now out.old out.new result }
{
    let mut at = 0;
    let mut count = 0;
    while at < text.len() {
        let next = longest_at(tables, text, at);
        if next.row == NONE {
            // Never on the tables of a build: each byte has a row.
            return count;
        }
        out[count] = next.row;
        count += 1;
        at += next.len;
    }
    count
}
