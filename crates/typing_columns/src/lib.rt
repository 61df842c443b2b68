// Typing over columns, in both directions. Byte, code and count of each record stand in three buffers, lent or those of
// `Columns`. Bytes stand in the order in which they were typed; in prepending the text is read from a fourth buffer,
// `reading`, in which they stand from the end back. The direction is a parameter, and prepending the same definition
// over the reversed text, so that one proof serves both. After a refusal the columns are scratch, since `typing` keeps
// the records whole.
#![tactic(auto)]

ghost use Rattle.std.specs.Prelude.{◌≡◌, length, replicate};
ghost use Rattle.built_tables.specs.Built.{dictionary_of};
ghost use Rattle.end_code.specs.Tables.{RowReady};
ghost use Rattle.end_code.specs.Codes.{CodeReady};
ghost use Rattle.end_code.specs.Sides.{side_of};
ghost use Rattle.typing_columns.specs.Columns.{ExtendedColumns, CountedColumns};
ghost use Rattle.typing_columns.specs.Steps.{FillReady, Mirrored, ends_bytes, EndsReady, PairOf};
ghost use Rattle.typing_columns.specs.Steps.{BesideIs, FollowsReady, FollowsIs, CountReady, CountIs};
ghost use Rattle.typing_columns.specs.Steps.{RecordsReady, RecordReady, RecordIs, RecordsAre, CodeIs};
ghost use Rattle.typing_columns.specs.Steps.{PushReady, Pushed, ExtendReady, ExtendedBy, Checked};
ghost use Rattle.tables.specs.Tables.{lent, pair_given};

use causes::Cause;
pub use end_code::Side;
use end_code::end_code_at;
use pair_check::is_valid_pair_by_parts;
use placed_rows::Rows;
use tables::{RowTables, Tables};

// The byte, the code and the count of each record, each in an array of its own.
#[derive(Drop)]
pub struct Columns {
    pub bytes: [u8; 4096],
    pub codes: [u32; 4096],
    pub counts: [u32; 4096],
}

// The number of bytes of a row.
fn row_len(rows: &Rows<'_>, code: u32) -> usize
    requires { RowReady rows.now.file.now rows.now.places.now rows.now.n code }
    ensures { result ≡ length ((dictionary_of rows.now.file.now).bytes code) }
{
    rows.length_of(code as usize)
}

// Puts the first `len` typed bytes into `reading`, from its end back.
pub fn fill_reading(bytes: &[u8], len: usize, reading: &mut [u8])
    requires { FillReady bytes.now reading.old len }
    ensures { Mirrored bytes.now reading.new len }
{
    for i in 0..len {
        let at = 4095 - i;
        reading[at] = bytes[i];
    }
}

// Whether a row ends the first i + 1 typed bytes.
fn row_ends(rows: &Rows<'_>, side: Side, bytes: &[u8], reading: &[u8], i: usize, code: u32) -> bool
    requires { EndsReady rows.now.file.now rows.now.places.now rows.now.n bytes.now reading.now i code }
    ensures { result ≡ ends_bytes (dictionary_of rows.now.file.now) (side_of side) bytes.now i code }
{
    let row = rows.bytes_of(code as usize);
    match side {
        Side::Append => {
            let end = i + 1;
            placed_rows::begins_facing(row, &bytes[..end], true)
        }
        Side::Prepend => {
            let from = 4095 - i;
            placed_rows::begins_facing(row, &reading[from..], false)
        }
    }
}

// Whether a row passes with the code typed before it.
fn passes_beside(tables: &RowTables<'_>, side: Side, before: u32, code: u32) -> bool
    requires { PairOf (pair_given tables.now) tables.now.rows.n before code }
    ensures { BesideIs (pair_given tables.now) (side_of side) tables.now.rows.n before code result }
{
    let limit = tables.rows.n as u32;
    match side {
        Side::Append => is_valid_pair_by_parts(tables, limit, before, code),
        Side::Prepend => is_valid_pair_by_parts(tables, limit, code, before),
    }
}

// Whether a row reaches the first byte, or passes with the code of the record just before its bytes.
fn follows(tables: &RowTables<'_>, side: Side, codes: &[u32], i: usize, code: u32) -> bool
    requires { FollowsReady (pair_given tables.now) tables.now.rows.n codes.now i code }
    ensures { FollowsIs (pair_given tables.now) (side_of side) tables.now.rows.n codes.now i code result }
{
    let len = row_len(&tables.rows, code);
    if i < len {
        return len == i + 1;
    }
    let before = codes[i - len];
    passes_beside(tables, side, before, code)
}

// The count of a record with this row: one more than that of the record just before the row's bytes, or 1.
fn count_with(rows: &Rows<'_>, counts: &[u32], i: usize, code: u32) -> u32
    requires { CountReady rows.now.file.now rows.now.places.now rows.now.n counts.now i code }
    ensures { CountIs rows.now.file.now counts.now i code result }
{
    let len = row_len(rows, code);
    if i < len {
        return 1;
    }
    counts[i - len] + 1
}

// Whether record i is in form, the records before it being so.
fn record_in_form(
    tables: &RowTables<'_>,
    side: Side,
    bytes: &[u8],
    reading: &[u8],
    codes: &[u32],
    counts: &[u32],
    i: usize,
) -> bool
    requires { RecordReady (pair_given tables.now) tables.now.rows.n bytes.now reading.now codes.now counts.now i }
    ensures { RecordIs (pair_given tables.now) (side_of side) tables.now.rows.n bytes.now codes.now counts.now i
        result }
{
    let code = codes[i];
    if tables.rows.n <= code as usize {
        return false;
    }
    if !row_ends(&tables.rows, side, bytes, reading, i, code) {
        return false;
    }
    if !follows(tables, side, codes, i, code) {
        return false;
    }
    counts[i] == count_with(&tables.rows, counts, i, code)
}

// Whether the records below `len` are in form.
pub fn records_in_form(
    tables: &RowTables<'_>,
    side: Side,
    bytes: &[u8],
    reading: &[u8],
    codes: &[u32],
    counts: &[u32],
    len: usize,
) -> bool
    requires { RecordsReady (pair_given tables.now) tables.now.rows.n bytes.now reading.now codes.now counts.now
        len }
    ensures { RecordsAre (pair_given tables.now) (side_of side) tables.now.rows.n bytes.now codes.now counts.now
        len result }
{
    for i in 0..len {
        if !record_in_form(tables, side, bytes, reading, codes, counts, i) {
            return false;
        }
    }
    true
}

// The code of the first i + 1 typed bytes, where `codes` has those of all shorter ones: the last code in appending,
// the first in prepending.
fn code_at(tables: &RowTables<'_>, side: Side, bytes: &[u8], i: usize, codes: &[u32]) -> u32
    requires { CodeReady (pair_given tables.now) tables.now.rows.n bytes.now i codes.now }
    ensures { CodeIs (pair_given tables.now) (side_of side) tables.now.rows.n bytes.now i codes.now result }
{
    end_code_at(tables, side, bytes, i, codes)
}

// One byte more, at place i.
pub fn push_core(
    tables: &RowTables<'_>,
    side: Side,
    i: usize,
    byte: u8,
    bytes: &mut [u8],
    codes: &mut [u32],
    counts: &mut [u32],
)
    requires { PushReady (pair_given tables.now) tables.now.rows.n i bytes.old codes.old counts.old }
    ensures { Pushed (pair_given tables.now) (side_of side) tables.now.rows.n i byte bytes.old codes.old counts.old
        bytes.new codes.new counts.new }
{
    bytes[i] = byte;
    let code = code_at(tables, side, bytes, i, codes);
    codes[i] = code;
    counts[i] = count_with(&tables.rows, counts, i, code);
}

// The bytes typed behind the first `len`, one after the other.
pub fn extend_core(
    tables: &RowTables<'_>,
    side: Side,
    len: usize,
    bytes: &mut [u8],
    codes: &mut [u32],
    counts: &mut [u32],
    typed: &[u8],
)
    requires { ExtendReady (pair_given tables.now) tables.now.rows.n len bytes.old codes.old counts.old typed.now }
    ensures { ExtendedBy (pair_given tables.now) (side_of side) tables.now.rows.n len bytes.old codes.old counts.old
        typed.now bytes.new codes.new counts.new }
{
    for (k, byte) in typed.iter().enumerate() {
        push_core(tables, side, len + k, *byte, bytes, codes, counts);
    }
}

// The tables with their rows if tables, head and records are in form.
fn columns_in_form<'a>(
    tables: &Tables<'a>,
    side: Side,
    len: usize,
    size: usize,
    bytes: &[u8; 4096],
    codes: &[u32; 4096],
    counts: &[u32; 4096],
) -> Option<RowTables<'a>>
    ensures { Checked (lent tables.now) (side_of side) len size bytes.now codes.now counts.now result }
{
    let tables = tables::in_form(tables)?;
    if size < len {
        return None;
    }
    if 4096 < len {
        return None;
    }
    let mut reading = [0; 4096];
    fill_reading(bytes, len, &mut reading);
    if !records_in_form(&tables, side, bytes, &reading, codes, counts, len) {
        return None;
    }
    Some(tables)
}

// Push and extend on columns: the answer is the new length.
pub fn extend_columns(
    tables: &Tables<'_>,
    side: Side,
    len: usize,
    size: usize,
    bytes: &mut [u8; 4096],
    codes: &mut [u32; 4096],
    counts: &mut [u32; 4096],
    typed: &[u8],
) -> Result<usize, Cause>
    ensures { ExtendedColumns (lent tables.now) (side_of side) len size bytes.old codes.old counts.old typed.now
        result bytes.new codes.new counts.new }
{
    if 4096 < typed.len() {
        return Err(Cause::TooLong);
    }
    let tables = columns_in_form(tables, side, len, size, bytes, codes, counts).ok_or(
        Cause::OutOfForm,
    )?;
    let longer = len + typed.len();
    if size < longer {
        return Err(Cause::Full(len));
    }
    if 4096 < longer {
        return Err(Cause::Full(len));
    }
    extend_core(&tables, side, len, bytes, codes, counts, typed);
    Ok(longer)
}

// `token_count` on columns: the last record's count, 0 at length 0.
pub fn count_columns(
    tables: &Tables<'_>,
    side: Side,
    len: usize,
    size: usize,
    bytes: &[u8; 4096],
    codes: &[u32; 4096],
    counts: &[u32; 4096],
) -> Result<usize, Cause>
    ensures { CountedColumns (lent tables.now) (side_of side) len size bytes.now codes.now counts.now result }
{
    columns_in_form(tables, side, len, size, bytes, codes, counts).ok_or(Cause::OutOfForm)?;
    if len == 0 {
        return Ok(0);
    }
    Ok(counts[len - 1] as usize)
}

impl Columns {
    // Columns before anything is typed.
    pub fn blank() -> Self
        ensures bytes { result.bytes ≡ replicate 4096 0 }
        ensures codes { result.codes ≡ replicate 4096 0 }
        ensures counts { result.counts ≡ replicate 4096 0 }
    {
        Columns {
            bytes: [0; 4096],
            codes: [0; 4096],
            counts: [0; 4096],
        }
    }

    // One byte more, at place i.
    pub fn push_core(&mut self, tables: &RowTables<'_>, side: Side, i: usize, byte: u8)
        requires { PushReady (pair_given tables.now) tables.now.rows.n i self.old.bytes self.old.codes
            self.old.counts }
        ensures { Pushed (pair_given tables.now) (side_of side) tables.now.rows.n i byte self.old.bytes
            self.old.codes self.old.counts self.new.bytes self.new.codes self.new.counts }
    {
        push_core(
            tables,
            side,
            i,
            byte,
            &mut self.bytes,
            &mut self.codes,
            &mut self.counts,
        );
    }

    // The bytes typed behind the first `len`, one after the other.
    pub fn extend_core(&mut self, tables: &RowTables<'_>, side: Side, len: usize, typed: &[u8])
        requires { ExtendReady (pair_given tables.now) tables.now.rows.n len self.old.bytes self.old.codes
            self.old.counts typed.now }
        ensures { ExtendedBy (pair_given tables.now) (side_of side) tables.now.rows.n len self.old.bytes
            self.old.codes self.old.counts typed.now self.new.bytes self.new.codes self.new.counts }
    {
        extend_core(
            tables,
            side,
            len,
            &mut self.bytes,
            &mut self.codes,
            &mut self.counts,
            typed,
        );
    }

    // Push and extend on columns: the answer is the new length.
    pub fn extend(
        &mut self,
        tables: &Tables<'_>,
        side: Side,
        len: usize,
        size: usize,
        typed: &[u8],
    ) -> Result<usize, Cause>
        ensures { ExtendedColumns (lent tables.now) (side_of side) len size self.old.bytes self.old.codes
            self.old.counts typed.now result self.new.bytes self.new.codes self.new.counts }
    {
        extend_columns(
            tables,
            side,
            len,
            size,
            &mut self.bytes,
            &mut self.codes,
            &mut self.counts,
            typed,
        )
    }

    // `token_count` on columns: the last record's count, 0 at length 0.
    pub fn token_count(
        &self,
        tables: &Tables<'_>,
        side: Side,
        len: usize,
        size: usize,
    ) -> Result<usize, Cause>
        ensures { CountedColumns (lent tables.now) (side_of side) len size self.now.bytes self.now.codes
            self.now.counts result }
    {
        count_columns(
            tables,
            side,
            len,
            size,
            &self.bytes,
            &self.codes,
            &self.counts,
        )
    }
}
