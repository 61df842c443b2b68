// Sending and counting: each call checks its arguments, and then runs its encoder over the tables in form.
// `encode_greedy` takes and checks a work buffer that it does not need, because document 01 asks it of all encoders. The
// public pair check is in pairs.rt.
#![tactic(auto)]

mod pairs;

ghost use Rattle.std.specs.Prelude.{◌≡◌};
ghost use Rattle.theory.specs.Merge as Merge;
ghost use Rattle.theory.specs.Shortest.{shortest, greedy};
ghost use Rattle.tables.specs.Tables.{lent};
ghost use Rattle.byte_pair_encoding.specs.Checked.{CheckedIs};
ghost use Rattle.byte_pair_encoding.specs.Sending.{Sends};
ghost use Rattle.byte_pair_encoding.specs.Counting.{Counts, CountsTillLimit};

use backtrack_encoder::{count_core, encode_via_backtracking_core};
use causes::Cause;
use limited_count::count_till_limit_core;
use merge_encoder::encode_via_bitfield_core;
pub use pairs::is_valid_token_pair;
use shortest_encoder::{encode_greedy_core, encode_minimal_core};
use table_encoder::encode_via_table_core;
use tables::{RowTables, Tables};

// The tables in form, or why a call is refused: a text over 4,096 bytes, an output or work buffer with less than one
// number per byte, tables out of form, in this order.
fn checked<'a>(
    tables: &Tables<'a>,
    text: &[u8],
    out: &[u32],
    work: &[u32],
) -> Result<RowTables<'a>, Cause>
    ensures { CheckedIs (lent tables.now) text.now out.now work.now result }
{
    if 4096 < text.len() {
        return Err(Cause::TooLong);
    }
    if out.len() < text.len() || work.len() < text.len() {
        return Err(Cause::TooShort);
    }
    tables::in_form(tables).ok_or(Cause::OutOfForm)
}

// The merge procedure's codes for the text, to the front of `out`, and how many.
pub fn encode_via_bitfield(
    tables: &Tables<'_>,
    text: &[u8],
    out: &mut [u32],
    work: &mut [u32],
) -> Result<usize, Cause>
    ensures { Sends Merge.encode (lent tables.now) text.now out.old work.old out.new work.new result }
{
    let tables = checked(tables, text, out, work)?;
    Ok(encode_via_bitfield_core(&tables, text, out, work))
}

// The same codes by backtracking.
pub fn encode_via_backtracking(
    tables: &Tables<'_>,
    text: &[u8],
    out: &mut [u32],
    work: &mut [u32],
) -> Result<usize, Cause>
    ensures { Sends Merge.encode (lent tables.now) text.now out.old work.old out.new work.new result }
{
    let tables = checked(tables, text, out, work)?;
    Ok(encode_via_backtracking_core(&tables, text, out, work))
}

// The same codes by the table of last codes.
pub fn encode_via_table(
    tables: &Tables<'_>,
    text: &[u8],
    out: &mut [u32],
    work: &mut [u32],
) -> Result<usize, Cause>
    ensures { Sends Merge.encode (lent tables.now) text.now out.old work.old out.new work.new result }
{
    let tables = checked(tables, text, out, work)?;
    Ok(encode_via_table_core(&tables, text, out, work))
}

// The fewest codes that spell the text, to the front of `out`, and how many; among those the longest first row, then
// the longest second, and so on.
pub fn encode_minimal(
    tables: &Tables<'_>,
    text: &[u8],
    out: &mut [u32],
    work: &mut [u32],
) -> Result<usize, Cause>
    ensures { Sends shortest (lent tables.now) text.now out.old work.old out.new work.new result }
{
    let tables = checked(tables, text, out, work)?;
    Ok(encode_minimal_core(&tables, text, out, work))
}

// The longest row at each place, to the front of `out`, and how many. The work buffer is asked for, as of every
// encoder, and not used.
pub fn encode_greedy(
    tables: &Tables<'_>,
    text: &[u8],
    out: &mut [u32],
    work: &mut [u32],
) -> Result<usize, Cause>
    ensures { Sends greedy (lent tables.now) text.now out.old work.old out.new work.new result }
{
    let tables = checked(tables, text, out, work)?;
    Ok(encode_greedy_core(&tables, text, out))
}

// The number of the merge procedure's codes for the text.
pub fn count(tables: &Tables<'_>, text: &[u8], work: &mut [u32]) -> Result<usize, Cause>
    ensures { Counts (lent tables.now) text.now work.old work.new result }
{
    let tables = checked(tables, text, work, work)?;
    Ok(count_core(&tables, text, work))
}

// The number of the merge procedure's codes for the text, or None for "over".
pub fn count_till_limit(
    tables: &Tables<'_>,
    text: &[u8],
    limit: u64,
    work: &mut [u32],
) -> Result<Option<usize>, Cause>
    ensures { CountsTillLimit (lent tables.now) text.now limit work.old work.new result }
{
    let tables = checked(tables, text, work, work)?;
    Ok(count_till_limit_core(&tables, text, limit, work))
}
