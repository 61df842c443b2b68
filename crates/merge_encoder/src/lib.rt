// The merge procedure over tables: each byte alone at first, then for each row, in their order, the neighbours that are
// the row's parts are joined, from left to right. A code stands in `work` at the place where its bytes begin. Each row
// has a queue of the places whose key it is or was; each is asked again at its turn, so that no order of a queue has to
// be proved. The codes stand in `work` while they change, since document 01 wants output beyond the answer unchanged.
#![tactic(auto)]

ghost use Rattle.std.specs.Prelude.{◌≡◌, ◌<◌, length};
ghost use Rattle.merge_encoder.specs.Encoding.{RowsReady, EncodeReady, Encoded};
ghost use Rattle.merge_encoder.specs.Steps.{KnownBytes, KnownCode, ByteCodes};
ghost use Rattle.tables.specs.Tables.{pair_given};

mod joins;

use bitfield::BitField;
use joins::Joins;
use placed_rows::NONE;
use tables::RowTables;

// The row of a byte, or row 0 where the search area finds none: from the rows of the bytes that were met before, or found
// and kept there.
fn byte_code(tables: &RowTables<'_>, byte: u8, known: &mut [Option<u32>; 256]) -> u32
    requires rows_ready { let t = tables.now in RowsReady t.rows.file.now t.rows.places.now t.area.now t.rows.n }
    requires known { KnownBytes (pair_given tables.now) tables.now.rows.n known.old }
    ensures { KnownCode (pair_given tables.now) tables.now.rows.n byte known.new result }
{
    if let Some(code) = known[byte as usize] {
        return code;
    }
    let found = search_area::find(&tables.rows, tables.area, &[byte]);
    // Kept: no plainer: the search area answers a row or NONE.
    let code = if found == NONE { 0 } else { found };
    known[byte as usize] = Some(code);
    code
}

// The codes of the bytes of the text.
fn fill_byte_codes(tables: &RowTables<'_>, text: &[u8], codes: &mut [u32])
    requires rows_ready { let t = tables.now in RowsReady t.rows.file.now t.rows.places.now t.area.now t.rows.n }
    requires same_length { length codes.old ≡ length text.now }
    ensures { ByteCodes (pair_given tables.now) tables.now.rows.n text.now codes.new }
{
    let mut known = [None; 256];
    for (at, byte) in text.iter().enumerate() {
        codes[at] = byte_code(tables, *byte, &mut known);
    }
}

// The merge procedure's codes for the text, to the front of `out`, and how many.
pub fn encode_via_bitfield_core(
    tables: &RowTables<'_>,
    text: &[u8],
    out: &mut [u32],
    work: &mut [u32],
) -> usize
    requires { EncodeReady (pair_given tables.now) tables.now.rows.n text.now out.old work.old }
    ensures { Encoded (pair_given tables.now) tables.now.rows.n text.now out.old out.new work.old work.new result }
{
    let codes = &mut work[..text.len()];
    fill_byte_codes(tables, text, codes);
    let mut joins = Joins {
        live: BitField::new(),
        keys: [NONE; 4096],
        heads: [0; 4096],
        pool: [0; 12289],
        count: 1,
    };
    joins.fill(tables, codes);
    joins.merge(tables, codes);
    joins.gather(codes, out)
}
