// The public pair check: whether two codes may stand beside each other. It has no text and no buffer, so 9 and 7 cannot
// apply; 10 has index 0 for the left code and 1 for the right.
ghost use Rattle.byte_pair_encoding.specs.Pair.{PairChecked};
ghost use Rattle.tables.specs.Tables.{lent};

use causes::Cause;
use tables::Tables;

// Whether token1 and token2 may stand beside each other.
pub fn is_valid_token_pair(tables: &Tables<'_>, token1: u32, token2: u32) -> Result<bool, Cause>
    ensures { PairChecked (lent tables.now) token1 token2 result }
{
    let tables = tables::in_form(tables).ok_or(Cause::OutOfForm)?;
    let n = tables.rows.n;
    if n <= token1 as usize {
        return Err(Cause::UnknownCode(0));
    }
    if n <= token2 as usize {
        return Err(Cause::UnknownCode(1));
    }
    Ok(pair_check::is_valid_pair_by_parts(&tables, n as u32, token1, token2))
}
