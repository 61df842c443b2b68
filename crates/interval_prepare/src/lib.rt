// The preparation of interval tables: the first part of the source's interval_encoding.rs.
#![tactic(auto)]

ghost use Rattle.std.specs.Prelude.{◌≡◌};
ghost use Rattle.interval_prepare.specs.Steps.{parent_in, ParentReady, OnesReady, Ones, AddReady, added};
ghost use Rattle.interval_prepare.specs.Steps.{SizesReady, SizesAre, ChildReady, ChildPlaced, TreeReady};
ghost use Rattle.interval_prepare.specs.Steps.{TreeIs};
ghost use Rattle.interval_prepare.specs.Answers.{too_short, CoreReady, CorePrepares, Prepares};
ghost use Rattle.tables.specs.Tables.{lent, pair_given};

use causes::Cause;
use end_code::bytes_before;
use placed_rows::Rows;
use table_encoder::encode_all_prefixes;
use tables::{RowTables, Tables};

// The length of the parent of the prefix of i bytes: the prefix without its last code; 0 where the code is longer.
fn parent_of(rows: &Rows<'_>, last_codes: &[u32], i: usize) -> usize
    requires { let r = rows.now in ParentReady r.file.now r.places.now r.n last_codes.now i }
    ensures { result ≡ parent_in rows.now.file.now last_codes.now i }
{
    bytes_before(rows, i, last_codes[i - 1])
}

// The first m entries of the work buffer are 1.
fn fill_ones(m: usize, work: &mut [u32])
    requires { OnesReady m work.old }
    ensures { Ones m work.old work.new }
{
    work[..m].fill(1);
}

// Adds the size of prefix i to that of its parent. That of the empty prefix is not kept.
fn add_size(i: usize, parent: usize, work: &mut [u32])
    requires { AddReady i parent work.old }
    ensures { work.new ≡ added i parent work.old }
{
    if parent == 0 {
        return;
    }
    work[parent - 1] = work[parent - 1] + work[i - 1];
}

// The size of each prefix but the empty one: how many are that prefix or below it. Entry i - 1 is that of prefix i.
fn fill_sizes(rows: &Rows<'_>, m: usize, last_codes: &[u32], work: &mut [u32])
    requires { let r = rows.now in SizesReady r.file.now r.places.now r.n m last_codes.now work.old }
    ensures { SizesAre rows.now.file.now m last_codes.now work.old work.new }
{
    fill_ones(m, work);
    for i in (1..m + 1).rev() {
        let parent = parent_of(rows, last_codes, i);
        add_size(i, parent, work);
    }
}

// Gives prefix i the next free number below its parent, and the parent's depth and 1.
fn place_child(
    i: usize,
    parent: usize,
    size: u32,
    numbers: &mut [u32],
    ends: &mut [u32],
    depths: &mut [u32],
)
    requires { ChildReady i parent size numbers.old ends.old depths.old }
    ensures { ChildPlaced i parent size numbers.old ends.old depths.old
        numbers.new ends.new depths.new }
{
    let number = ends[parent];
    numbers[i] = number;
    ends[i] = number + 1;
    depths[i] = depths[parent] + 1;
    ends[parent] = number + size;
}

// Tree number, tree end and depth of each prefix, from the sizes.
// Kept: no plainer: a struct of the three tables lent to be written needs a clause for each that it is the same borrow.
fn fill_tree(
    rows: &Rows<'_>,
    m: usize,
    last_codes: &[u32],
    work: &[u32],
    numbers: &mut [u32],
    ends: &mut [u32],
    depths: &mut [u32],
)
    requires { let r = rows.now in TreeReady r.file.now r.places.now r.n m last_codes.now work.now numbers.old
        ends.old depths.old }
    ensures { TreeIs rows.now.file.now m last_codes.now numbers.old ends.old depths.old numbers.new ends.new
        depths.new }
{
    numbers[0] = 0;
    ends[0] = 1;
    depths[0] = 0;
    for i in 1..m + 1 {
        let parent = parent_of(rows, last_codes, i);
        place_child(i, parent, work[i - 1], numbers, ends, depths);
    }
}

// Last code, tree number, tree end and depth of each prefix of a text, over tables in form.
pub fn prepare_core(
    tables: &RowTables<'_>,
    text: &[u8],
    last_codes: &mut [u32],
    numbers: &mut [u32],
    ends: &mut [u32],
    depths: &mut [u32],
    work: &mut [u32],
)
    requires { CoreReady (pair_given tables.now) tables.now.rows.n text.now last_codes.old numbers.old
        ends.old depths.old work.old }
    ensures { CorePrepares (pair_given tables.now) tables.now.rows.n text.now last_codes.old numbers.old
        ends.old depths.old work.old last_codes.new numbers.new ends.new depths.new work.new }
{
    let m = text.len();
    encode_all_prefixes(tables, text, last_codes);
    fill_sizes(&tables.rows, m, last_codes, work);
    fill_tree(&tables.rows, m, last_codes, work, numbers, ends, depths);
}

// Whether a buffer is too short: last codes and work need one number per byte, the tree tables one more.
fn is_too_short(
    text: &[u8],
    last_codes: &[u32],
    numbers: &[u32],
    ends: &[u32],
    depths: &[u32],
    work: &[u32],
) -> bool
    ensures { result ≡ too_short text.now last_codes.now numbers.now
        ends.now depths.now work.now }
{
    if last_codes.len() < text.len() {
        return true;
    }
    if work.len() < text.len() {
        return true;
    }
    if numbers.len() <= text.len() {
        return true;
    }
    if ends.len() <= text.len() {
        return true;
    }
    depths.len() <= text.len()
}

// Prepares the interval tables of a text: the source's `IntervalEncoding::new`. The answer is the text's length.
pub fn prepare(
    tables: &Tables<'_>,
    text: &[u8],
    last_codes: &mut [u32],
    numbers: &mut [u32],
    ends: &mut [u32],
    depths: &mut [u32],
    work: &mut [u32],
) -> Result<usize, Cause>
    ensures { Prepares (lent tables.now) text.now last_codes.old numbers.old ends.old depths.old work.old
        last_codes.new numbers.new ends.new depths.new work.new result }
{
    if 4096 < text.len() {
        return Err(Cause::TooLong);
    }
    if is_too_short(text, last_codes, numbers, ends, depths, work) {
        return Err(Cause::TooShort);
    }
    let tables = tables::in_form(tables).ok_or(Cause::OutOfForm)?;
    prepare_core(&tables, text, last_codes, numbers, ends, depths, work);
    Ok(text.len())
}
