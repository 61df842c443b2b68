// The sender against the counters on one text: demand 3 as a promise about code. The whole demand is one record,
// `Demand3` in specs/Demand3.antt; that decoding gives the text is `RoundTrip` in specs/RoundTrip.antt. Their premises
// are the contracts' own records, so that a reader goes from a statement to the function in one step.
#![tactic(auto)]

ghost use Rattle.agreement.specs.Agreement.{TypedCount, Agrees};
ghost use Rattle.tables.specs.Tables.{lent};

use causes::Cause;
use tables::Tables;
use typing_columns::Side;

// The count after the text was typed byte by byte.
fn typed_count(tables: &Tables<'_>, text: &[u8], counts: &mut [u32]) -> usize
    ensures { TypedCount (lent tables.now) text.now counts.old counts.new result }
{
    let typed = typing::type_text(tables, Side::Append, text, counts);
    if typed == 0 {
        return 0;
    }
    counts[typed - 1] as usize
}

// Sends the text, counts it and types it, and says whether the three numbers of codes are the same: the number, or
// none where they differ. Refused is what the sender refuses; the counter, which asks for less, refuses nothing then.
pub fn sender_against_counters(
    tables: &Tables<'_>,
    text: &[u8],
    out: &mut [u32],
    work: &mut [u32],
    counts: &mut [u32],
) -> Result<Option<usize>, Cause>
    ensures { Agrees (lent tables.now) text.now out.old work.old counts.old out.new work.new counts.new result }
{
    let sent = byte_pair_encoding::encode_via_backtracking(tables, text, out, work)?;
    let counted = byte_pair_encoding::count(tables, text, work)?;
    if sent != counted {
        return Ok(None);
    }
    if sent != typed_count(tables, text, counts) {
        return Ok(None);
    }
    Ok(Some(sent))
}
