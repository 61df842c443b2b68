// Typing from length 0 over lent columns: what push does for each byte, after one check of the tables.
ghost use Rattle.std.specs.Prelude.{ℕ, Result};
ghost use Rattle.causes.specs.declared.Cause.{Cause};
ghost use Rattle.tables.specs.Tables.{tables};
ghost use Rattle.end_code.specs.Sides.{side_of, side_numbered};
ghost use Rattle.typing_columns.specs.Columns.{ExtendedColumns};
ghost use Rattle.bench_exports.specs.Core.{Answers};

use tables::Tables;
use typing_columns::Side;

// Types the bytes, each at the end (side 0) or each at the front; the number of bytes typed, or the place of a refusal.
// Kept: C interface: the benchmark calls it by this name, with these slices.
#[unsafe(no_mangle)]
pub extern "C" fn measured_extend<'a>(
    file: &'a [u8],
    places: &'a [u32],
    lefts: &'a [u32],
    rights: &'a [u32],
    prefixes: &'a [u32],
    area: &'a [u32],
    side: u32,
    typed: &[u8],
    bytes: &mut [u8; 4096],
    codes: &mut [u32; 4096],
    counts: &mut [u32; 4096],
) -> u64
    ensures { Answers (λ (a : Result ℕ Cause). ExtendedColumns
        (tables file.now places.now lefts.now rights.now prefixes.now area.now)
        (side_of (side_numbered side)) 0 4096 bytes.old codes.old counts.old typed.now a
        bytes.new codes.new counts.new) result }
{
    let tables = Tables {
        file,
        places,
        lefts,
        rights,
        prefixes,
        area,
    };
    let answer = typing_columns::extend_columns(
        &tables,
        Side::from(side),
        0,
        4096,
        bytes,
        codes,
        counts,
        typed,
    );
    causes::answer_place(answer)
}
