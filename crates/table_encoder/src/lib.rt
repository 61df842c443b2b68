// The last code of each prefix of a text, and the codes of the text walked from the end. The codes are counted before
// they are written, since document 01 wants output beyond the answer unchanged.
#![tactic(auto)]

ghost use Rattle.std.specs.Prelude.{◌≡◌, length};
ghost use Rattle.tables.specs.Tables.{pair_given};
ghost use Rattle.table_encoder.specs.LastCodes.{PrefixesReady, PrefixesAre};
ghost use Rattle.table_encoder.specs.Walk.{walked, WalkReady, WriteReady, TableReady, TableCodes};

use end_code::{Side, bytes_before, end_code_at};
use placed_rows::Rows;
use tables::RowTables;

// The last code of each prefix of the text, at the front of the table.
pub fn encode_all_prefixes(tables: &RowTables<'_>, text: &[u8], table: &mut [u32])
    requires { PrefixesReady (pair_given tables.now) tables.now.rows.n text.now table.old }
    ensures { PrefixesAre (pair_given tables.now) tables.now.rows.n text.now table.old table.new }
{
    for i in 0..text.len() {
        let code = end_code_at(tables, Side::Append, text, i, table);
        table[i] = code;
    }
}

// The number of codes of the bytes whose last codes are given, walked from the end.
fn count_back(rows: &Rows<'_>, last_codes: &[u32]) -> usize
    requires { WalkReady rows.now.file.now rows.now.places.now rows.now.n last_codes.now }
    ensures { result ≡ length (walked rows.now.file.now last_codes.now) }
{
    let mut count = 0;
    let mut pos = last_codes.len();
    while 0 < pos {
        pos = bytes_before(rows, pos, last_codes[pos - 1]);
        count += 1;
    }
    count
}

// Writes those codes, walked from the end, to an output that has as many numbers.
fn write_back(rows: &Rows<'_>, last_codes: &[u32], out: &mut [u32])
    requires { WriteReady rows.now.file.now rows.now.places.now rows.now.n last_codes.now out.old }
    ensures { out.new ≡ walked rows.now.file.now last_codes.now }
{
    let mut at = out.len();
    let mut pos = last_codes.len();
    while 0 < pos {
        let code = last_codes[pos - 1];
        at -= 1;
        out[at] = code;
        pos = bytes_before(rows, pos, code);
    }
}

// The codes of the text by the table: the last code of each prefix, walked from the end.
pub fn encode_via_table_core(
    tables: &RowTables<'_>,
    text: &[u8],
    out: &mut [u32],
    work: &mut [u32],
) -> usize
    requires { TableReady (pair_given tables.now) tables.now.rows.n text.now out.old work.old }
    ensures { TableCodes (pair_given tables.now) tables.now.rows.n text.now out.old work.old
        out.new work.new result }
{
    let m = text.len();
    encode_all_prefixes(tables, text, work);
    let last_codes = &work[..m];
    let count = count_back(&tables.rows, last_codes);
    write_back(&tables.rows, last_codes, &mut out[..count]);
    count
}
