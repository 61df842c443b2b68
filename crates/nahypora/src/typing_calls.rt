// The typing calls for C, document 01's AppendableEncoder and PrependableEncoder: each packs the answer of the call of
// crate `typing`. The side is the call's first own argument, as there; 0 appends, any other number prepends. Head and
// records are `#[repr(C)]` structs of that crate.
ghost use Rattle.std.specs.Prelude.{[], ◌∷◌, ℕ, length, Result};
ghost use Rattle.causes.specs.declared.Cause.{Cause};
ghost use Rattle.causes.specs.Causes.{answer_of};
ghost use Rattle.tables.specs.Tables.{tables};
ghost use Rattle.end_code.specs.Sides.{side_of, side_numbered};
ghost use Rattle.typing.specs.Calls.{Extended, TokenCounted, Truncated};
ghost use Rattle.nahypora.specs.Packed.{Packs};

use crate::pack_answer;
use tables::Tables;
use typing::{Head, State};
use typing_columns::Side;

// One byte, at the end or at the front; the answer is the new length.
// Kept: C interface: C calls it by this name, with these slices.
#[unsafe(no_mangle)]
pub extern "C" fn bpe_push<'a>(
    file: &'a [u8],
    places: &'a [u32],
    lefts: &'a [u32],
    rights: &'a [u32],
    prefixes: &'a [u32],
    area: &'a [u32],
    side: u32,
    byte: u8,
    head: &mut Head,
    states: &mut [State],
) -> u64
    ensures { Packs answer_of (λ (a : Result ℕ Cause). Extended
        (tables file.now places.now lefts.now rights.now prefixes.now area.now)
        (side_of (side_numbered side)) head.old.len states.old (byte ∷ []) a head.new.len
        states.new) result }
{
    let tables = Tables {
        file,
        places,
        lefts,
        rights,
        prefixes,
        area,
    };
    pack_answer(typing::push(&tables, Side::from(side), head, states, byte))
}

// Bytes in order, each at the end or each at the front; the answer is the new length.
// Kept: C interface: C calls it by this name, with these slices.
#[unsafe(no_mangle)]
pub extern "C" fn bpe_extend<'a>(
    file: &'a [u8],
    places: &'a [u32],
    lefts: &'a [u32],
    rights: &'a [u32],
    prefixes: &'a [u32],
    area: &'a [u32],
    side: u32,
    bytes: &[u8],
    head: &mut Head,
    states: &mut [State],
) -> u64
    ensures { Packs answer_of (λ (a : Result ℕ Cause). Extended
        (tables file.now places.now lefts.now rights.now prefixes.now area.now)
        (side_of (side_numbered side)) head.old.len states.old bytes.now a
        head.new.len states.new) result }
{
    let tables = Tables {
        file,
        places,
        lefts,
        rights,
        prefixes,
        area,
    };
    pack_answer(typing::extend(&tables, Side::from(side), head, states, bytes))
}

// The first so many records kept; the answer is the new length. No tables are looked at, and the side does not matter.
// Kept: C interface: C calls it by this name, with these slices.
#[unsafe(no_mangle)]
pub extern "C" fn bpe_truncate(keep: usize, head: &mut Head, states: &[State]) -> u64
    ensures { Packs answer_of (λ (a : Result ℕ Cause). Truncated head.old.len
        (length states.now) keep a head.new.len) result }
{
    pack_answer(typing::truncate(head, states, keep))
}

// The count of the last record, 0 at length 0.
// Kept: C interface: C calls it by this name, with these slices.
#[unsafe(no_mangle)]
pub extern "C" fn bpe_token_count<'a>(
    file: &'a [u8],
    places: &'a [u32],
    lefts: &'a [u32],
    rights: &'a [u32],
    prefixes: &'a [u32],
    area: &'a [u32],
    side: u32,
    head: &Head,
    states: &[State],
) -> u64
    ensures { Packs answer_of (λ (a : Result ℕ Cause). TokenCounted
        (tables file.now places.now lefts.now rights.now prefixes.now area.now)
        (side_of (side_numbered side)) head.now.len states.now a) result }
{
    let tables = Tables {
        file,
        places,
        lefts,
        rights,
        prefixes,
        area,
    };
    pack_answer(typing::token_count(&tables, Side::from(side), head, states))
}
