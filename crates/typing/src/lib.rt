// Typing records in a lent slice and a head that is lent. The records are copied into columns, `typing_columns` works
// on these, and the records added are stored. The direction is an argument, so that appending and prepending share each
// function and each proof.
#![tactic(auto)]

ghost use Rattle.std.specs.Prelude.{◌≡◌, [], ◌∷◌, min, length};
ghost use Rattle.end_code.specs.Sides.{side_of};
ghost use Rattle.typing_columns.specs.Refusals.{head_out};
ghost use Rattle.typing.specs.Steps.{usable_of, end_after, Room, Copied, Places, Stored};
ghost use Rattle.typing.specs.Calls.{Extended, TokenCounted, Truncated};
ghost use Rattle.typing.specs.Text.{TextTyped};
ghost use Rattle.tables.specs.Tables.{lent};

use causes::Cause;
use tables::Tables;
use typing_columns::{Columns, Side};

// A typing record: a byte, the last code of the text up to it (in prepending the first code), and the number of its
// codes.
#[repr(C)]
#[derive(Clone, Copy, PartialEq, Eq)]
pub struct State {
    pub byte: u8,
    pub code: u32,
    pub count: u32,
}

// The number of bytes typed.
#[repr(C)]
#[derive(Clone, Copy)]
pub struct Head {
    pub len: usize,
}

// Whether a head is out of form for a slice of so many records.
fn head_out(len: usize, size: usize) -> bool
    ensures { result ≡ head_out len size }
{
    size < len || 4096 < len
}

// How many records can be looked at.
fn usable(len: usize, size: usize) -> usize
    ensures { result ≡ usable_of len size }
{
    if head_out(len, size) { 0 } else { len }
}

// The fields of the first k records, into the columns.
fn copy_out(states: &[State], k: usize, columns: &mut Columns)
    requires { Room k (length states.now) }
    ensures { Copied states.now k columns.new.bytes columns.new.codes columns.new.counts }
{
    for i in 0..k {
        let state = states[i];
        columns.bytes[i] = state.byte;
        columns.codes[i] = state.code;
        columns.counts[i] = state.count;
    }
}

// Records from the columns, at the places from one to another.
fn store_all(states: &mut [State], from: usize, end: usize, columns: &Columns)
    requires { Places from end (length states.old) }
    ensures { Stored states.old from end columns.now.bytes columns.now.codes columns.now.counts states.new }
{
    for i in from..end {
        states[i] = State {
            byte: columns.bytes[i],
            code: columns.codes[i],
            count: columns.counts[i],
        };
    }
}

// The head's length becomes the lesser of it and what is to be kept; the slice is asked for its number of records
// alone.
pub fn truncate(head: &mut Head, states: &[State], keep: usize) -> Result<usize, Cause>
    ensures { Truncated head.old.len (length states.now) keep result head.new.len }
{
    if head_out(head.len, states.len()) {
        return Err(Cause::OutOfForm);
    }
    head.len = head.len.min(keep);
    Ok(head.len)
}

// The count of the last record.
pub fn token_count(
    tables: &Tables<'_>,
    side: Side,
    head: &Head,
    states: &[State],
) -> Result<usize, Cause>
    ensures { TokenCounted (lent tables.now) (side_of side) head.now.len states.now result }
{
    let size = states.len();
    let mut columns = Columns::blank();
    copy_out(states, usable(head.len, size), &mut columns);
    columns.token_count(tables, side, head.len, size)
}

// The typed bytes, in the records after the last; a refusal changes nothing.
pub fn extend(
    tables: &Tables<'_>,
    side: Side,
    head: &mut Head,
    states: &mut [State],
    typed: &[u8],
) -> Result<usize, Cause>
    ensures { Extended (lent tables.now) (side_of side) head.old.len states.old typed.now result head.new.len
        states.new }
{
    let len = head.len;
    let size = states.len();
    let mut columns = Columns::blank();
    copy_out(states, usable(len, size), &mut columns);
    let end = columns.extend(tables, side, len, size, typed)?;
    store_all(states, len, end, &columns);
    head.len = end;
    Ok(end)
}

// One byte, in the record after the last; a refusal changes nothing.
pub fn push(
    tables: &Tables<'_>,
    side: Side,
    head: &mut Head,
    states: &mut [State],
    byte: u8,
) -> Result<usize, Cause>
    ensures { Extended (lent tables.now) (side_of side) head.old.len states.old (byte ∷ []) result head.new.len
        states.new }
{
    extend(tables, side, head, states, &[byte])
}

// A number as an entry of a buffer; a refusal is 0.
fn entry_of(answer: Result<usize, Cause>) -> u32
    ensures { result ≡ min (end_after answer 0) 4294967295 }
{
    answer.unwrap_or(0).min(4294967295) as u32
}

// Types the text, one byte after the other, into records of its own, and writes the count after each. How many bytes
// were typed.
pub fn type_text(tables: &Tables<'_>, side: Side, text: &[u8], counts: &mut [u32]) -> usize
    ensures { TextTyped (lent tables.now) (side_of side) text.now counts.old result counts.new }
{
    let mut states = [State {
        byte: 0,
        code: 0,
        count: 0,
    }; 4096];
    let mut head = Head { len: 0 };
    let most = text.len().min(counts.len());
    for i in 0..most {
        let pushed = push(tables, side, &mut head, &mut states, text[i]);
        if pushed.is_err() {
            return i;
        }
        counts[i] = entry_of(token_count(tables, side, &head, &states));
    }
    most
}
