// The C interface: every public call under the name `bpe_` and the call's name. A slice arrives as a pointer and a
// length in elements. Each returns one number: the cause's number (0 for an answer) times 2^32, plus the place or the
// answer's number. It is a number because an exported call cannot return an enum. The side of the typing calls is a
// number too, of which any but 0 prepends, so that no refusal is needed for one without a meaning.
#![tactic(auto)]

ghost use Rattle.std.specs.Prelude.{◌≡◌, [], ◌∷◌, ℕ, Option, Result};
ghost use Rattle.causes.specs.declared.Cause.{Cause};
ghost use Rattle.causes.specs.Causes.{answered, answer_of, pair_answer_of, limit_answer_of};
ghost use Rattle.tables.specs.Tables.{tables, lent_to_fill, left};
ghost use Rattle.tables.specs.Answers.{NumTokens, TokenLen};
ghost use Rattle.byte_pair_encoding.specs.Pair.{PairChecked};
ghost use Rattle.dictionary.specs.Build.{BuildIs};
ghost use Rattle.theory.specs.Merge.{encode};
ghost use Rattle.theory.specs.Shortest.{shortest, greedy};
ghost use Rattle.decoder.specs.Decoding.{Decodes};
ghost use Rattle.byte_pair_encoding.specs.Sending.{Sends};
ghost use Rattle.byte_pair_encoding.specs.Counting.{Counts, CountsTillLimit};
ghost use Rattle.nahypora.specs.Packed.{packed, packed_of, Packs};

mod intervals;
mod typing_calls;

use causes::{Cause, Told};
use tables::Tables;

// A cause's number and its place in one number.
#[tactic(auto, unfolding(crate::specs::Packed::packed))]
pub fn pack(number: u32, place: u64) -> u64
    ensures { result ≡ packed number place }
{
    u64::from(number) * 4294967296 + place.min(4294967295)
}

// An answer in one number.
fn pack_answer<T: Told + Copy>(answer: Result<T, Cause>) -> u64
    ensures { result ≡ packed_of (answered T.told answer) }
{
    pack(causes::answer_number(answer), causes::answer_place(answer))
}

// Kept: C interface: C calls it by this name, with these slices.
#[unsafe(no_mangle)]
pub extern "C" fn bpe_from_dictionary(
    file: &[u8],
    factor: u64,
    places: &mut [u32],
    lefts: &mut [u32],
    rights: &mut [u32],
    prefixes: &mut [u32],
    area: &mut [u32],
) -> u64
    ensures { Packs answer_of (λ (a : Result ℕ Cause). BuildIs factor
        (lent_to_fill file places lefts rights prefixes area) (left file places lefts rights prefixes area) a) result }
{
    pack_answer(dictionary::from_dictionary(file, factor, places, lefts, rights, prefixes, area))
}

// Kept: C interface: C calls it by this name, with these slices.
#[unsafe(no_mangle)]
pub extern "C" fn bpe_is_valid_token_pair<'a>(
    file: &'a [u8],
    places: &'a [u32],
    lefts: &'a [u32],
    rights: &'a [u32],
    prefixes: &'a [u32],
    area: &'a [u32],
    token1: u32,
    token2: u32,
) -> u64
    ensures { Packs pair_answer_of (PairChecked (tables file.now places.now lefts.now rights.now prefixes.now area.now)
        token1 token2) result }
{
    let tables = Tables {
        file,
        places,
        lefts,
        rights,
        prefixes,
        area,
    };
    pack_answer(byte_pair_encoding::is_valid_token_pair(&tables, token1, token2))
}

// Kept: C interface: C calls it by this name, with these slices.
#[unsafe(no_mangle)]
pub extern "C" fn bpe_num_tokens<'a>(
    file: &'a [u8],
    places: &'a [u32],
    lefts: &'a [u32],
    rights: &'a [u32],
    prefixes: &'a [u32],
    area: &'a [u32],
) -> u64
    ensures { Packs answer_of
        (NumTokens (tables file.now places.now lefts.now rights.now prefixes.now area.now)) result }
{
    let tables = Tables {
        file,
        places,
        lefts,
        rights,
        prefixes,
        area,
    };
    pack_answer(tables::num_tokens(&tables))
}

// Kept: C interface: C calls it by this name, with these slices.
#[unsafe(no_mangle)]
pub extern "C" fn bpe_token_len<'a>(
    file: &'a [u8],
    places: &'a [u32],
    lefts: &'a [u32],
    rights: &'a [u32],
    prefixes: &'a [u32],
    area: &'a [u32],
    token: u32,
) -> u64
    ensures { Packs answer_of (TokenLen (tables file.now places.now lefts.now rights.now prefixes.now area.now)
        token) result }
{
    let tables = Tables {
        file,
        places,
        lefts,
        rights,
        prefixes,
        area,
    };
    pack_answer(tables::token_len(&tables, token))
}

// Kept: C interface: C calls it by this name, with these slices.
#[unsafe(no_mangle)]
pub extern "C" fn bpe_encode_via_bitfield<'a>(
    file: &'a [u8],
    places: &'a [u32],
    lefts: &'a [u32],
    rights: &'a [u32],
    prefixes: &'a [u32],
    area: &'a [u32],
    text: &[u8],
    out: &mut [u32],
    work: &mut [u32],
) -> u64
    ensures { Packs answer_of (λ (a : Result ℕ Cause). Sends encode
        (tables file.now places.now lefts.now rights.now prefixes.now area.now)
        text.now out.old work.old out.new work.new a) result }
{
    let tables = Tables {
        file,
        places,
        lefts,
        rights,
        prefixes,
        area,
    };
    pack_answer(byte_pair_encoding::encode_via_bitfield(&tables, text, out, work))
}

// Kept: C interface: C calls it by this name, with these slices.
#[unsafe(no_mangle)]
pub extern "C" fn bpe_encode_via_backtracking<'a>(
    file: &'a [u8],
    places: &'a [u32],
    lefts: &'a [u32],
    rights: &'a [u32],
    prefixes: &'a [u32],
    area: &'a [u32],
    text: &[u8],
    out: &mut [u32],
    work: &mut [u32],
) -> u64
    ensures { Packs answer_of (λ (a : Result ℕ Cause). Sends encode
        (tables file.now places.now lefts.now rights.now prefixes.now area.now)
        text.now out.old work.old out.new work.new a) result }
{
    let tables = Tables {
        file,
        places,
        lefts,
        rights,
        prefixes,
        area,
    };
    pack_answer(byte_pair_encoding::encode_via_backtracking(&tables, text, out, work))
}

// Kept: C interface: C calls it by this name, with these slices.
#[unsafe(no_mangle)]
pub extern "C" fn bpe_encode_via_table<'a>(
    file: &'a [u8],
    places: &'a [u32],
    lefts: &'a [u32],
    rights: &'a [u32],
    prefixes: &'a [u32],
    area: &'a [u32],
    text: &[u8],
    out: &mut [u32],
    work: &mut [u32],
) -> u64
    ensures { Packs answer_of (λ (a : Result ℕ Cause). Sends encode
        (tables file.now places.now lefts.now rights.now prefixes.now area.now)
        text.now out.old work.old out.new work.new a) result }
{
    let tables = Tables {
        file,
        places,
        lefts,
        rights,
        prefixes,
        area,
    };
    pack_answer(byte_pair_encoding::encode_via_table(&tables, text, out, work))
}

// Kept: C interface: C calls it by this name, with these slices.
#[unsafe(no_mangle)]
pub extern "C" fn bpe_encode_minimal<'a>(
    file: &'a [u8],
    places: &'a [u32],
    lefts: &'a [u32],
    rights: &'a [u32],
    prefixes: &'a [u32],
    area: &'a [u32],
    text: &[u8],
    out: &mut [u32],
    work: &mut [u32],
) -> u64
    ensures { Packs answer_of (λ (a : Result ℕ Cause). Sends shortest
        (tables file.now places.now lefts.now rights.now prefixes.now area.now)
        text.now out.old work.old out.new work.new a) result }
{
    let tables = Tables {
        file,
        places,
        lefts,
        rights,
        prefixes,
        area,
    };
    pack_answer(byte_pair_encoding::encode_minimal(&tables, text, out, work))
}

// Kept: C interface: C calls it by this name, with these slices.
#[unsafe(no_mangle)]
pub extern "C" fn bpe_encode_greedy<'a>(
    file: &'a [u8],
    places: &'a [u32],
    lefts: &'a [u32],
    rights: &'a [u32],
    prefixes: &'a [u32],
    area: &'a [u32],
    text: &[u8],
    out: &mut [u32],
    work: &mut [u32],
) -> u64
    ensures { Packs answer_of (λ (a : Result ℕ Cause). Sends greedy
        (tables file.now places.now lefts.now rights.now prefixes.now area.now)
        text.now out.old work.old out.new work.new a) result }
{
    let tables = Tables {
        file,
        places,
        lefts,
        rights,
        prefixes,
        area,
    };
    pack_answer(byte_pair_encoding::encode_greedy(&tables, text, out, work))
}

// Kept: C interface: C calls it by this name, with these slices.
#[unsafe(no_mangle)]
pub extern "C" fn bpe_count<'a>(
    file: &'a [u8],
    places: &'a [u32],
    lefts: &'a [u32],
    rights: &'a [u32],
    prefixes: &'a [u32],
    area: &'a [u32],
    text: &[u8],
    work: &mut [u32],
) -> u64
    ensures { Packs answer_of (λ (a : Result ℕ Cause). Counts
        (tables file.now places.now lefts.now rights.now prefixes.now area.now)
        text.now work.old work.new a) result }
{
    let tables = Tables {
        file,
        places,
        lefts,
        rights,
        prefixes,
        area,
    };
    pack_answer(byte_pair_encoding::count(&tables, text, work))
}

// Kept: C interface: C calls it by this name, with these slices.
#[unsafe(no_mangle)]
pub extern "C" fn bpe_count_till_limit<'a>(
    file: &'a [u8],
    places: &'a [u32],
    lefts: &'a [u32],
    rights: &'a [u32],
    prefixes: &'a [u32],
    area: &'a [u32],
    text: &[u8],
    limit: u64,
    work: &mut [u32],
) -> u64
    ensures { Packs limit_answer_of (λ (a : Result (Option ℕ) Cause). CountsTillLimit
        (tables file.now places.now lefts.now rights.now prefixes.now area.now)
        text.now limit work.old work.new a) result }
{
    let tables = Tables {
        file,
        places,
        lefts,
        rights,
        prefixes,
        area,
    };
    pack_answer(byte_pair_encoding::count_till_limit(&tables, text, limit, work))
}

// Kept: C interface: C calls it by this name, with these slices.
#[unsafe(no_mangle)]
pub extern "C" fn bpe_decode_tokens<'a>(
    file: &'a [u8],
    places: &'a [u32],
    lefts: &'a [u32],
    rights: &'a [u32],
    prefixes: &'a [u32],
    area: &'a [u32],
    tokens: &[u32],
    out: &mut [u8],
) -> u64
    ensures { Packs answer_of (λ (a : Result ℕ Cause). Decodes
        (tables file.now places.now lefts.now rights.now prefixes.now area.now)
        tokens.now out.old out.new a) result }
{
    let tables = Tables {
        file,
        places,
        lefts,
        rights,
        prefixes,
        area,
    };
    pack_answer(decoder::decode_tokens(&tables, tokens, out))
}

// Kept: C interface: C calls it by this name, with these slices.
#[unsafe(no_mangle)]
pub extern "C" fn bpe_token_bytes<'a>(
    file: &'a [u8],
    places: &'a [u32],
    lefts: &'a [u32],
    rights: &'a [u32],
    prefixes: &'a [u32],
    area: &'a [u32],
    token: u32,
    out: &mut [u8],
) -> u64
    ensures { Packs answer_of (λ (a : Result ℕ Cause). Decodes
        (tables file.now places.now lefts.now rights.now prefixes.now area.now)
        (token ∷ []) out.old out.new a) result }
{
    let tables = Tables {
        file,
        places,
        lefts,
        rights,
        prefixes,
        area,
    };
    pack_answer(decoder::token_bytes(&tables, token, out))
}
