// The end code of a text with one byte more, where those of the shorter texts are known: the last code where bytes are
// typed at its end, the first code where they are typed at its front. From the byte's own row on, rows are joined as
// the merge procedure joins them; no text is searched for rows. `FirstJoin` of `theory` is the definition.
#![tactic(auto)]

ghost use Rattle.std.specs.Prelude.{◌≡◌, ◌-◌, ◌<◌, length};
ghost use Rattle.theory.specs.FirstJoin.{bound_at};
ghost use Rattle.theory.proofs.Spine.{or_else};
ghost use Rattle.built_tables.specs.Built.{dictionary_of};
ghost use Rattle.tables.specs.Tables.{pair_given};
ghost use Rattle.end_code.specs.Tables.{RowReady};
ghost use Rattle.end_code.specs.Sides.{side_of, side_numbered, inner_of, other_of};
ghost use Rattle.end_code.specs.Joins.{PartReady, BesideReady, BesideIs, FirstReady, FirstIs};
ghost use Rattle.end_code.specs.Codes.{ByteReady, ByteIs, CodeReady, CodeIs};

use pair_check::join_before;
use placed_rows::{NONE, Rows};
use search_area::first_match;
use tables::RowTables;

// v, or other where v is NONE.
// Kept: JoinBelow of theory (a definition) needs it: join_before answers a row or NONE by it, and a join here too.
fn or_else(v: u32, other: u32) -> u32
    ensures { result ≡ or_else v other }
{
    if v == NONE { other } else { v }
}

// The side of a text at which bytes are typed: its end, or its front.
#[derive(Clone, Copy)]
pub enum Side {
    Append,
    Prepend,
}

// The side by its number, for callers that have no enums: 0 appends, any other number prepends.
impl From<u32> for Side {
    ghost from_gives = { λ number side. side ≡ side_numbered number };

    fn from(number: u32) -> Self
        ensures { result ≡ side_numbered number }
    {
        if number == 0 {
            Side::Append
        } else {
            Side::Prepend
        }
    }
}

impl Side {
    // The rows in whose passes the part of row x stands at this side are those below this one.
    fn bound_at(self, x: u32) -> u32
        requires { x < 4096 }
        ensures { result ≡ bound_at (side_of self) x }
    {
        match self {
            Side::Append => x,
            Side::Prepend => x + 1,
        }
    }

    // The part of row x at this side of it: its last, or its first.
    fn inner_part(self, tables: &RowTables<'_>, x: u32) -> u32
        requires { PartReady (pair_given tables.now) x }
        ensures { result ≡ inner_of (pair_given tables.now) (side_of self) x }
    {
        match self {
            Side::Append => tables.rights[x as usize],
            Side::Prepend => tables.lefts[x as usize],
        }
    }

    // The part at its other side.
    // Kept: no plainer: each is one match, and inner_part and other_part of theory (definitions) are two as well.
    fn other_part(self, tables: &RowTables<'_>, x: u32) -> u32
        requires { PartReady (pair_given tables.now) x }
        ensures { result ≡ other_of (pair_given tables.now) (side_of self) x }
    {
        match self {
            Side::Append => tables.lefts[x as usize],
            Side::Prepend => tables.rights[x as usize],
        }
    }

    // The row below bound that has x and, typed beside it, `typed` as its parts, or NONE.
    fn join_beside(self, tables: &RowTables<'_>, bound: u32, x: u32, typed: u32) -> u32
        requires { BesideReady (pair_given tables.now) tables.now.rows.n bound x typed }
        ensures { BesideIs (pair_given tables.now) (side_of self) tables.now.rows.n bound x typed result }
    {
        let limit = tables.rows.n as u32;
        match self {
            Side::Append => join_before(tables, limit, bound, x, typed),
            Side::Prepend => join_before(tables, limit, bound, typed, x),
        }
    }

    // The lowest row that joins `typed` and what `code` has at this side by then, or NONE.
    fn first_join(self, tables: &RowTables<'_>, code: u32, typed: u32) -> u32
        requires { FirstReady (pair_given tables.now) tables.now.rows.n code typed }
        ensures { FirstIs (pair_given tables.now) (side_of self) tables.now.rows.n code typed result }
    {
        let mut x = code;
        let mut bound = tables.rows.n as u32;
        let mut best = NONE;
        loop {
            let v = self.join_beside(tables, bound, x, typed);
            best = or_else(v, best);
            let part = self.inner_part(tables, x);
            if part == x {
                return best;
            }
            bound = self.bound_at(x);
            x = part;
        }
    }
}

// The row of the byte at place i.
fn byte_row(rows: &Rows<'_>, area: &[u32], bytes: &[u8], i: usize) -> u32
    requires { ByteReady rows.now.file.now rows.now.places.now area.now rows.now.n bytes.now i }
    ensures { ByteIs rows.now.file.now rows.now.places.now area.now rows.now.n bytes.now i result }
{
    let found = first_match(rows, area, bytes, i);
    if found.row == NONE {
        // Never on the tables of a build: each byte has a row.
        return 0;
    }
    found.row
}

// The end code of the first i + 1 typed bytes, where `codes` has those of all shorter ones.
pub fn end_code_at(tables: &RowTables<'_>, side: Side, bytes: &[u8], i: usize, codes: &[u32]) -> u32
    requires { CodeReady (pair_given tables.now) tables.now.rows.n bytes.now i codes.now }
    ensures { CodeIs (pair_given tables.now) (side_of side) tables.now.rows.n bytes.now i codes.now result }
{
    let mut code = byte_row(&tables.rows, tables.area, bytes, i);
    let mut at = i;
    while at > 0 {
        let before = codes[at - 1];
        let joined = side.first_join(tables, before, code);
        if joined == NONE {
            return code;
        }
        let other = side.other_part(tables, joined);
        let len = tables.rows.length_of(other as usize);
        if at < len {
            // Never on the tables of a build: the part ends the bytes before.
            return code;
        }
        code = joined;
        at -= len;
    }
    code
}

// The bytes before row `code` where it ends the first `pos` bytes; none where the row is longer.
pub fn bytes_before(rows: &Rows<'_>, pos: usize, code: u32) -> usize
    requires { RowReady rows.now.file.now rows.now.places.now rows.now.n code }
    ensures { result ≡ pos - length ((dictionary_of rows.now.file.now).bytes code) }
{
    pos.saturating_sub(rows.length_of(code as usize))
}
