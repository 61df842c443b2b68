// The count with a limit: the source's `count_till_limit`, whose "over" may be a guess; here it is a fact about the
// text. The codes are counted by backtracking. Two facts end it early, once the count has reached the limit: the codes
// so far stay where no row has the seam of the bytes at their end; and every code list has a cut among 64 places in a
// row, since no row is longer.
#![tactic(auto)]

ghost use Rattle.std.specs.Prelude.{◌≡◌, ◌≤◌, ◌<◌, length};
ghost use Rattle.marks.specs.Layout.{area_size};
ghost use Rattle.theory.specs.CountLimit.{final};
ghost use Rattle.tables.specs.Tables.{given, pair_given};
ghost use Rattle.backtrack_encoder.specs.Encoder.{TextReady};
ghost use Rattle.limited_count.specs.Answers.{limited_of, LimitedIs};
ghost use Rattle.limited_count.specs.Stops.{stays_at, StaysIf, in_a_row, ManyReady, ManyIs, AheadReady};
ghost use Rattle.limited_count.specs.Stops.{OverIs};

use backtrack_encoder::{BacktrackEncoder, start, step};
use bitfield::BitField;
use end_code::{Side, bytes_before, end_code_at};
use pair_check::may_join;
use placed_rows::NONE;
use tables::RowTables;

// The answer for a final count: the count, or None for "over".
fn within(count: usize, limit: u64) -> Option<usize>
    ensures { limited_of result ≡ final limit count }
{
    if limit < count as u64 {
        None
    } else {
        Some(count)
    }
}

// Whether text is left at a place and no row has the seam there: then the codes up to it stay.
fn codes_stay(area: &[u32], text: &[u8], pos: usize) -> bool
    requires { area_size ≤ length area.now }
    ensures { result ≡ stays_at area.now text.now pos }
{
    if text.len() <= pos {
        return false;
    }
    if pos == 0 {
        return true;
    }
    !may_join(area, text[pos - 1], text[pos])
}

// The same where it was asked so often before: after 64 times in vain it is asked only every eighth time, so that a
// text without such a place costs no more than its steps.
fn stay_now(area: &[u32], text: &[u8], pos: usize, asked: usize) -> bool
    requires { area_size ≤ length area.now }
    ensures { StaysIf area.now text.now pos result }
{
    if 64 < asked && asked % 8 != 0 {
        return false;
    }
    codes_stay(area, text, pos)
}

// How many places in a row have `limit` codes or more, with one place more.
fn one_more(many: usize, count: u32, limit: u64) -> usize
    requires { many ≤ 512 }
    ensures { result ≡ in_a_row many count limit }
{
    if (count as u64) < limit { 0 } else { many + 1 }
}

// Whether the first bytes up to each of 64 places in a row have `limit` codes or more. The codes up to a place are
// counted by its last code, as the table has it.
fn have_many_codes(tables: &RowTables<'_>, text: &[u8], limit: u64) -> bool
    requires { ManyReady (pair_given tables.now) tables.now.rows.n text.now }
    ensures { ManyIs (pair_given tables.now) tables.now.rows.n text.now limit result }
{
    let mut codes = [0u32; 512];
    let mut counts = [0u32; 513];
    let mut many = 0;
    for i in 0..text.len() {
        let code = end_code_at(tables, Side::Append, text, i, &codes);
        codes[i] = code;
        let count = counts[bytes_before(&tables.rows, i + 1, code)] + 1;
        counts[i + 1] = count;
        many = one_more(many, count, limit);
        if many == 64 {
            return true;
        }
    }
    false
}

// Whether the places up to 64 behind an encoder's show that the text is over. It is asked where the seams said nothing
// 64 times. A place costs as much as a step or more, so the places are looked at only if many of the last 64 steps took
// a code back, and if they are no more than an eighth of the text.
fn is_over_ahead(tables: &RowTables<'_>, text: &[u8], encoder: BacktrackEncoder, limit: u64) -> bool
    requires { AheadReady (pair_given tables.now) tables.now.rows.n text.now encoder limit }
    ensures { OverIs (pair_given tables.now) tables.now.rows.n text.now limit result }
{
    if limit + 40 < encoder.count as u64 {
        return false;
    }
    let end = encoder.pos + 64;
    if text.len() < 8 * end {
        return false;
    }
    have_many_codes(tables, &text[..end], limit)
}

// The number of codes of a text, or None for "over".
pub fn count_till_limit_core(
    tables: &RowTables<'_>,
    text: &[u8],
    limit: u64,
    work: &mut [u32],
) -> Option<usize>
    requires { TextReady (given tables.now) tables.now.rows.n text.now work.old }
    ensures { LimitedIs (given tables.now) tables.now.rows.n text.now limit work.old result work.new }
{
    let mut alive = BitField::new();
    let mut encoder = start(&tables.rows, tables.area, text);
    let mut asked = 0usize;
    for _done in 0..2 * text.len() {
        if encoder.next == NONE {
            return within(encoder.count, limit);
        }
        if limit <= encoder.count as u64 {
            if stay_now(tables.area, text, encoder.pos, asked) {
                return None;
            }
            asked += 1;
            if asked == 64 && is_over_ahead(tables, text, encoder, limit) {
                return None;
            }
        }
        encoder = step(tables, text, encoder, work, &mut alive);
    }
    within(encoder.count, limit)
}
