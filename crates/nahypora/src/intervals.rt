// The interval calls for C, document 01's IntervalEncoding: each packs the answer of the public call of crate
// `interval_prepare` or `interval_count`.
ghost use Rattle.std.specs.Prelude.{ℕ, Result};
ghost use Rattle.causes.specs.declared.Cause.{Cause};
ghost use Rattle.tables.specs.Tables.{tables};
ghost use Rattle.causes.specs.Causes.{answer_of};
ghost use Rattle.interval_prepare.specs.Answers.{Prepares};
ghost use Rattle.interval_count.specs.Answers.{Counts};
ghost use Rattle.nahypora.specs.Packed.{Packs};

use crate::pack_answer;
use interval_count::IntervalTables;
use tables::Tables;

// Last codes, tree numbers, tree ends and depths of a text; the answer is the text's length.
// Kept: C interface: C calls it by this name, with these slices.
#[unsafe(no_mangle)]
pub extern "C" fn bpe_interval_prepare<'a>(
    file: &'a [u8],
    places: &'a [u32],
    lefts: &'a [u32],
    rights: &'a [u32],
    prefixes: &'a [u32],
    area: &'a [u32],
    text: &[u8],
    last_codes: &mut [u32],
    numbers: &mut [u32],
    ends: &mut [u32],
    depths: &mut [u32],
    work: &mut [u32],
) -> u64
    ensures { Packs answer_of (λ (a : Result ℕ Cause). Prepares
        (tables file.now places.now lefts.now rights.now prefixes.now area.now)
        text.now last_codes.old numbers.old ends.old depths.old work.old
        last_codes.new numbers.new ends.new depths.new work.new a) result }
{
    let tables = Tables {
        file,
        places,
        lefts,
        rights,
        prefixes,
        area,
    };
    pack_answer(interval_prepare::prepare(&tables, text, last_codes, numbers, ends, depths, work))
}

// The number of codes of the piece from start to end, the byte at the end not included, over the tables that
// preparation left.
// Kept: C interface: C calls it by this name, with these slices.
#[unsafe(no_mangle)]
pub extern "C" fn bpe_interval_count<'a>(
    file: &'a [u8],
    places: &'a [u32],
    lefts: &'a [u32],
    rights: &'a [u32],
    prefixes: &'a [u32],
    area: &'a [u32],
    text: &'a [u8],
    last_codes: &'a [u32],
    numbers: &'a [u32],
    ends: &'a [u32],
    depths: &'a [u32],
    start: usize,
    end: usize,
    work: &mut [u32],
) -> u64
    ensures { Packs answer_of (λ (a : Result ℕ Cause). Counts
        (tables file.now places.now lefts.now rights.now prefixes.now area.now)
        text.now last_codes.now numbers.now ends.now depths.now start end work.old
        work.new a) result }
{
    let tables = Tables {
        file,
        places,
        lefts,
        rights,
        prefixes,
        area,
    };
    let prepared = IntervalTables {
        text,
        last_codes,
        numbers,
        ends,
        depths,
    };
    pack_answer(prepared.count(&tables, start, end, work))
}
