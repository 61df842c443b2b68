// Core calls in a loop, exported for the benchmark alone: a public call checks the tables, which takes far longer
// than one of them.
#![tactic(auto)]

ghost use Rattle.std.specs.Prelude.{◌≡◌, ℕ, ◌≤◌, ◌<◌, length};
ghost use Rattle.marks.specs.Layout.{area_size};
ghost use Rattle.placed_rows.specs.Rows.{row};
ghost use Rattle.search_area.specs.Answers.{Found};
ghost use Rattle.pair_check.specs.Pair.{PairReady};
ghost use Rattle.shortest_encoder.specs.Encoders.{MinimalReady, MinimalIs, GreedyReady, GreedyIs};
ghost use Rattle.bench_exports.specs.Measured.{LookupReady, JoinReady, PairsReady, PairNumber, Each, Finds, Joins};
ghost use Rattle.bench_exports.specs.Measured.{Pairs};
ghost use Rattle.tables.specs.Tables.{pair_tables};

mod pieces;
mod typed;

use placed_rows::Rows;
use tables::RowTables;

// The row with the bytes of row x.
fn find_row(rows: &Rows<'_>, area: &[u32], x: u32) -> u32
    requires { (area_size ≤ length area.now) × (x < rows.now.n) }
    ensures { let r = rows.now in Found r.file.now r.places.now r.n area.now (row r.file.now r.places.now r.n x) result }
{
    search_area::find(rows, area, rows.bytes_of(x as usize))
}

// Whether x and y pass, as a number.
// Kept: PairsReady (the clause of the export) needs it: only of a pair to check does it say that the rows may be read.
fn pair_number<'a>(
    file: &'a [u8],
    places: &'a [u32],
    lefts: &'a [u32],
    rights: &'a [u32],
    area: &'a [u32],
    n: usize,
    x: u32,
    y: u32,
) -> u32
    requires pair_ready { PairReady (pair_tables file.now places.now lefts.now rights.now area.now) n n x y }
    requires n_bound { n ≤ 4096 }
    ensures { PairNumber (pair_tables file.now places.now lefts.now rights.now area.now) n x y result }
{
    let tables = RowTables {
        rows: Rows { file, places, n },
        lefts,
        rights,
        prefixes: &[],
        area,
    };
    u32::from(pair_check::is_valid_pair_by_parts(&tables, n as u32, x, y))
}

// Writes the first m entries, each by its place.
fn write_each<F: Fn(usize) -> u32>(m: usize, out: &mut [u32], entry: F)
    requires room { m ≤ length out.old }
    requires callable { (i : ℕ) → i < m → F.pre entry i }
    ensures { Each (λ (i r : ℕ). F.post entry i r) m out.old out.new }
{
    for i in 0..m {
        out[i] = entry(i);
    }
}

// Each code is looked up by its bytes.
// Kept: C interface: the benchmark calls it by this name, with these slices.
#[unsafe(no_mangle)]
pub extern "C" fn measured_finds(
    file: &[u8],
    places: &[u32],
    area: &[u32],
    n: usize,
    codes: &[u32],
    out: &mut [u32],
)
    requires { LookupReady file.now places.now n area.now codes.now out.old }
    ensures { Finds file.now places.now n area.now codes.now
        out.old out.new }
{
    let rows = Rows { file, places, n };
    write_each(codes.len(), out, |i| find_row(&rows, area, codes[i]));
}

// Each code is joined with the code at its place in the other list.
// Kept: C interface: the benchmark calls it by this name, with these slices.
#[unsafe(no_mangle)]
pub extern "C" fn measured_joins(
    file: &[u8],
    places: &[u32],
    area: &[u32],
    n: usize,
    codes: &[u32],
    others: &[u32],
    out: &mut [u32],
)
    requires { JoinReady file.now places.now n area.now codes.now others.now out.old }
    ensures { Joins file.now places.now n area.now codes.now
        others.now out.old out.new }
{
    let rows = Rows { file, places, n };
    write_each(
        codes.len(),
        out,
        |i| search_area::join(&rows, area, codes[i], others[i]),
    );
}

// Each code is checked with the code at its place in the other list.
// Kept: C interface: the benchmark calls it by this name, with these slices.
#[unsafe(no_mangle)]
pub extern "C" fn measured_pairs(
    file: &[u8],
    places: &[u32],
    lefts: &[u32],
    rights: &[u32],
    area: &[u32],
    n: usize,
    codes: &[u32],
    others: &[u32],
    out: &mut [u32],
)
    requires { PairsReady (pair_tables file.now places.now lefts.now rights.now area.now) n codes.now others.now out.old }
    ensures { Pairs file.now places.now n area.now codes.now
        lefts.now rights.now others.now out.old out.new }
{
    write_each(codes.len(), out, |i| {
        pair_number(file, places, lefts, rights, area, n, codes[i], others[i])
    });
}

// The core of `encode_minimal`, by itself.
// Kept: C interface: the benchmark calls it by this name, with these slices.
#[unsafe(no_mangle)]
pub extern "C" fn measured_minimal<'a>(
    file: &'a [u8],
    places: &'a [u32],
    area: &'a [u32],
    n: usize,
    text: &[u8],
    out: &mut [u32],
    work: &mut [u32],
) -> usize
    requires { MinimalReady file.now places.now area.now n text.now out.old work.old }
    ensures { MinimalIs file.now places.now area.now n text.now
        out.old out.new work.old work.new result }
{
    let tables = RowTables {
        rows: Rows { file, places, n },
        lefts: &[],
        rights: &[],
        prefixes: &[],
        area,
    };
    shortest_encoder::encode_minimal_core(&tables, text, out, work)
}

// The core of `encode_greedy`, by itself.
// Kept: C interface: the benchmark calls it by this name, with these slices.
#[unsafe(no_mangle)]
pub extern "C" fn measured_greedy<'a>(
    file: &'a [u8],
    places: &'a [u32],
    area: &'a [u32],
    n: usize,
    text: &[u8],
    out: &mut [u32],
) -> usize
    requires { GreedyReady file.now places.now area.now n text.now out.old }
    ensures { GreedyIs file.now places.now area.now n text.now
        out.old out.new result }
{
    let tables = RowTables {
        rows: Rows { file, places, n },
        lefts: &[],
        rights: &[],
        prefixes: &[],
        area,
    };
    shortest_encoder::encode_greedy_core(&tables, text, out)
}
