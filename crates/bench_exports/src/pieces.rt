// Counts of pieces of a prepared text, over tables in form.
ghost use Rattle.interval_count.specs.Answers.{CoreReady};
ghost use Rattle.bench_exports.specs.Core.{PiecesReady, PieceCounted, Pieces};
ghost use Rattle.tables.specs.Tables.{tables, given};

use interval_count::IntervalTables;
use placed_rows::Rows;
use tables::RowTables;

// The count of one piece, as a number of 32 bits.
fn piece_number(
    tables: &RowTables<'_>,
    prepared: &IntervalTables<'_>,
    from: usize,
    to: usize,
    work: &mut [u32],
) -> u32
    requires { let I = prepared.now in CoreReady (given tables.now) tables.now.rows.n I.text.now I.last_codes.now
        I.numbers.now I.ends.now I.depths.now from to work.old }
    ensures { let I = prepared.now in PieceCounted (given tables.now) tables.now.rows.n I.text.now I.last_codes.now
        I.numbers.now I.ends.now I.depths.now from to work.old result work.new }
{
    prepared.count_core(tables, from, to, work) as u32
}

// Each piece is counted.
// Kept: C interface: the benchmark calls it by this name, with these slices.
#[unsafe(no_mangle)]
pub extern "C" fn measured_pieces<'a>(
    file: &'a [u8],
    places: &'a [u32],
    lefts: &'a [u32],
    rights: &'a [u32],
    prefixes: &'a [u32],
    area: &'a [u32],
    n: usize,
    text: &'a [u8],
    last_codes: &'a [u32],
    numbers: &'a [u32],
    ends: &'a [u32],
    depths: &'a [u32],
    froms: &[u32],
    tos: &[u32],
    work: &mut [u32],
    out: &mut [u32],
)
    requires { PiecesReady (tables file.now places.now lefts.now rights.now prefixes.now area.now)
        n text.now last_codes.now numbers.now ends.now depths.now froms.now tos.now work.old
        out.old }
    ensures { Pieces (tables file.now places.now lefts.now rights.now prefixes.now area.now)
        n text.now last_codes.now numbers.now ends.now depths.now froms.now
        tos.now out.old out.new }
{
    let tables = RowTables {
        rows: Rows { file, places, n },
        lefts,
        rights,
        prefixes,
        area,
    };
    let prepared = IntervalTables {
        text,
        last_codes,
        numbers,
        ends,
        depths,
    };
    for (i, from) in froms.iter().enumerate() {
        out[i] = piece_number(&tables, &prepared, *from as usize, tos[i] as usize, work);
    }
}
