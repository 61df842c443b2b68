// Sending and counting by backtracking: the source's backtrack_encoder.rs, and the functions of byte_pair_encoding.rs
// that run it. The codes stand in the work buffer while they change and are copied to the output at the end, since
// document 01 wants output beyond the answer unchanged.
#![tactic(auto)]

ghost use Rattle.std.specs.Prelude.{◌≡◌, ◌++◌, ◌<◌, ◌≤◌, length, take, drop};
ghost use Rattle.marks.specs.Layout.{area_size};
ghost use Rattle.tables.specs.Tables.{given, pair_given};
ghost use Rattle.tables.specs.Ready.{PlacesReady, PartsReady};
ghost use Rattle.backtrack_encoder.specs.Encoder.{TextReady, RowsReady, EncoderReady};
ghost use Rattle.backtrack_encoder.specs.Steps.{EndsIn, FitsIs, FirstFitIs, Started, Added, TakenBack, Stepped};
ghost use Rattle.backtrack_encoder.specs.Answers.{OutputReady, Backtracked, EncodedInto, CountIs};

use bitfield::BitField;
use pair_check::is_valid_pair;
use placed_rows::{NONE, Rows};
use search_area::next_match;
use tables::RowTables;

// The number of codes so far, the place that they reach, and the next row to try, NONE where nothing is left to try.
// The codes stand at the front of a lent work buffer. The places that are not dead are the set bits of a bit set.
// Kept: Shows (a definition) needs it: next is a row or NONE, as the lent prefixes and Match name what is tried next.
#[derive(Clone, Copy)]
pub struct BacktrackEncoder {
    pub count: usize,
    pub pos: usize,
    pub next: u32,
}

// Whether a row passes with the last code, and its end is in the text and not dead.
fn fits(
    tables: &RowTables<'_>,
    text: &[u8],
    encoder: BacktrackEncoder,
    work: &[u32],
    alive: &BitField,
    token: u32,
) -> bool
    requires rows_ready { let T = pair_given tables.now in
        RowsReady T.file T.places T.area tables.now.rows.n text.now work.now
        × PartsReady T.file T.lefts T.rights tables.now.rows.n }
    requires encoder_ready { let r = tables.now.rows in
        EncoderReady r.file.now r.n text.now encoder work.now × (token < r.n) }
    ensures { FitsIs (pair_given tables.now) tables.now.rows.n text.now encoder work.now
        alive.now.words token result }
{
    let end = encoder.pos + tables.rows.length_of(token as usize);
    if text.len() < end {
        return false;
    }
    if !alive.is_set(end) {
        return false;
    }
    if encoder.count == 0 {
        return true;
    }
    let at = encoder.count - 1;
    let last = work[at];
    is_valid_pair(tables, tables.rows.n as u32, last, token)
}

// The first that fits along the next row, its prefix, the prefix of that and so on, or NONE.
fn first_fit(
    tables: &RowTables<'_>,
    text: &[u8],
    encoder: BacktrackEncoder,
    work: &[u32],
    alive: &BitField,
) -> u32
    requires text_ready { TextReady (given tables.now) tables.now.rows.n text.now work.now }
    requires encoder_ready { EncoderReady tables.now.rows.file.now tables.now.rows.n text.now encoder work.now }
    ensures { FirstFitIs (given tables.now) tables.now.rows.n text.now encoder work.now
        alive.now.words result }
{
    let mut token = encoder.next;
    while token != NONE {
        if fits(tables, text, encoder, work, alive, token) {
            return token;
        }
        token = tables.prefixes[token as usize];
    }
    NONE
}

// The encoder of a text before any step.
pub fn start(rows: &Rows<'_>, area: &[u32], text: &[u8]) -> BacktrackEncoder
    requires { PlacesReady rows.now.file.now rows.now.places.now rows.now.n ×
        ((area_size ≤ length area.now) × (length text.now ≤ 4096)) }
    ensures { let r = rows.now in Started r.file.now r.places.now area.now r.n text.now result }
{
    let found = next_match(rows, area, text, 0);
    BacktrackEncoder {
        count: 0,
        pos: 0,
        next: found.row,
    }
}

// Adds a row; the longest row behind it is the next to try.
fn add(
    rows: &Rows<'_>,
    area: &[u32],
    text: &[u8],
    encoder: BacktrackEncoder,
    token: u32,
    work: &mut [u32],
) -> BacktrackEncoder
    requires rows_ready { let r = rows.now in
        RowsReady r.file.now r.places.now area.now r.n text.now work.old }
    requires encoder_ready { let r = rows.now in EncoderReady r.file.now r.n text.now encoder work.old ×
        ((token < r.n) × EndsIn r.file.now text.now encoder token) }
    ensures { let r = rows.now in Added r.file.now r.places.now area.now r.n text.now
        encoder work.old token result work.new }
{
    let at = encoder.count;
    work[at] = token;
    let count = at + 1;
    let pos = encoder.pos + rows.length_of(token as usize);
    let found = next_match(rows, area, text, pos);
    BacktrackEncoder {
        count,
        pos,
        next: found.row,
    }
}

// Marks the place dead and takes back one code, which is the next to try.
fn take_back(
    rows: &Rows<'_>,
    text: &[u8],
    encoder: BacktrackEncoder,
    work: &[u32],
    alive: &mut BitField,
) -> BacktrackEncoder
    requires places_ready { PlacesReady rows.now.file.now rows.now.places.now rows.now.n ×
        (length text.now ≤ length work.now) }
    requires encoder_ready { EncoderReady rows.now.file.now rows.now.n text.now encoder work.now }
    ensures { TakenBack rows.now.file.now rows.now.n text.now encoder work.now
        alive.old.words result alive.new.words }
{
    alive.clear_bit(encoder.pos);
    if encoder.count == 0 {
        return BacktrackEncoder {
            count: 0,
            pos: 0,
            next: NONE,
        };
    }
    let count = encoder.count - 1;
    let last = work[count];
    let pos = encoder.pos - rows.length_of(last as usize);
    BacktrackEncoder {
        count,
        pos,
        next: last,
    }
}

// A step adds or takes back one code. Where nothing is left to try it changes nothing.
// Kept: no plainer: a struct that holds the work buffer, lent to be written, needs a clause on it in each method.
pub fn step(
    tables: &RowTables<'_>,
    text: &[u8],
    encoder: BacktrackEncoder,
    work: &mut [u32],
    alive: &mut BitField,
) -> BacktrackEncoder
    requires text_ready { TextReady (given tables.now) tables.now.rows.n text.now work.old }
    requires encoder_ready { EncoderReady tables.now.rows.file.now tables.now.rows.n text.now encoder work.old }
    ensures { Stepped (given tables.now) tables.now.rows.n text.now encoder work.old alive.old.words
        result work.new alive.new.words }
{
    if encoder.next == NONE {
        return encoder;
    }
    let token = first_fit(tables, text, encoder, work, alive);
    if token == NONE {
        return take_back(&tables.rows, text, encoder, work, alive);
    }
    add(&tables.rows, tables.area, text, encoder, token, work)
}

// The codes of a text, into the front of the work buffer, and how many. A text of m bytes takes at most 2 m steps.
pub fn backtrack(tables: &RowTables<'_>, text: &[u8], work: &mut [u32]) -> usize
    requires { TextReady (given tables.now) tables.now.rows.n text.now work.old }
    ensures { Backtracked (given tables.now) tables.now.rows.n text.now work.old result work.new }
{
    let mut alive = BitField::new();
    let mut encoder = start(&tables.rows, tables.area, text);
    for _done in 0..2 * text.len() {
        if encoder.next == NONE {
            return encoder.count;
        }
        encoder = step(tables, text, encoder, work, &mut alive);
    }
    encoder.count
}

// Copies the first `count` codes to the front of the output.
// Kept: C interface: std's copy_from_slice needs memmove from outside the archive, which a caller in C did not need
// before.
fn copy_codes(codes: &[u32], count: usize, out: &mut [u32])
    requires { (count ≤ length codes.now) × (count ≤ length out.old) }
    ensures { out.new ≡ take count codes.now ++ drop count out.old }
{
    for i in 0..count {
        out[i] = codes[i];
    }
}

// The codes of a text, into the front of the output, and how many.
pub fn encode_via_backtracking_core(
    tables: &RowTables<'_>,
    text: &[u8],
    out: &mut [u32],
    work: &mut [u32],
) -> usize
    requires { OutputReady (given tables.now) tables.now.rows.n text.now out.old work.old }
    ensures { EncodedInto (given tables.now) tables.now.rows.n text.now out.old work.old
        result out.new work.new }
{
    let count = backtrack(tables, text, work);
    copy_codes(work, count, out);
    count
}

// The number of codes of a text.
pub fn count_core(tables: &RowTables<'_>, text: &[u8], work: &mut [u32]) -> usize
    requires { TextReady (given tables.now) tables.now.rows.n text.now work.old }
    ensures { CountIs (given tables.now) tables.now.rows.n text.now work.old result work.new }
{
    backtrack(tables, text, work)
}
