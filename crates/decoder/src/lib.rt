// Decoding: the bytes that codes spell, as document 01's `decode_tokens` and `token_bytes` give them. `token_bytes` is
// decoding the list of its one code, so that both have one contract.
#![tactic(auto)]

ghost use Rattle.std.specs.Prelude.{◌≡◌, [], ◌∷◌, ◌++◌, ◌<◌, length, take, drop, nat_le, position};
ghost use Rattle.placed_rows.specs.Reading.{rows_of};
ghost use Rattle.placed_rows.specs.Texts.{Begins};
ghost use Rattle.theory.specs.Dictionary.{spell};
ghost use Rattle.tables.specs.Tables.{lent};
ghost use Rattle.built_tables.specs.Built.{dictionary_of};
ghost use Rattle.decoder.specs.Decoding.{Decodes};
ghost use Rattle.decoder.specs.Steps.{CodesReady, CopyReady, Copied, WriteReady};

use causes::Cause;
use placed_rows::Rows;
use tables::{Tables, in_form};

// The index of the first code not below n.
fn first_unknown(tokens: &[u32], n: usize) -> Option<usize>
    ensures { result ≡ position (nat_le n) tokens.now }
{
    tokens.iter().position(|token| n <= *token as usize)
}

// The number of bytes that codes spell.
fn spelled_length(rows: &Rows<'_>, tokens: &[u32]) -> usize
    requires { CodesReady rows.now.file.now rows.now.places.now rows.now.n tokens.now }
    ensures { result ≡ length (spell (dictionary_of rows.now.file.now) tokens.now) }
{
    let mut sum = 0;
    for token in tokens {
        sum += rows.length_of(*token as usize);
    }
    sum
}

// The file from the first byte of row c on.
fn file_from<'a>(rows: &Rows<'a>, c: usize) -> &'a [u8]
    requires { c < rows.now.n }
    ensures { Begins (rows_of rows.now c) result.now }
{
    let from = rows.places[c] as usize + 3;
    &rows.file[from..]
}

// Copies the first `count` bytes to the front of the output.
// Kept: C interface: std's copy_from_slice of a length that is not known needs memmove from outside the archive, which
// a caller in C did not need before.
fn copy_bytes(source: &[u8], count: usize, out: &mut [u8])
    requires { CopyReady source.now count out.old }
    ensures { out.new ≡ take count source.now ++ drop count out.old }
{
    for j in 0..count {
        out[j] = source[j];
    }
}

// Copies the first `count` bytes to the front of the output. Where there is room it copies 16 bytes at once, so the
// rest of the output may change too.
fn copy_row(source: &[u8], count: usize, out: &mut [u8])
    requires { CopyReady source.now count out.old }
    ensures { Copied source.now count out.old out.new }
{
    if 16 < count || source.len() < 16 || out.len() < 16 {
        copy_bytes(source, count, out);
        return;
    }
    out[..16].copy_from_slice(&source[..16]);
}

// Writes the bytes that codes spell to an output that is as long.
fn write_spelled(rows: &Rows<'_>, tokens: &[u32], out: &mut [u8])
    requires { WriteReady rows.now.file.now rows.now.places.now rows.now.n tokens.now out.old }
    ensures { out.new ≡ spell (dictionary_of rows.now.file.now) tokens.now }
{
    let mut at = 0;
    for token in tokens {
        let c = *token as usize;
        let size = rows.length_of(c);
        copy_row(file_from(rows, c), size, &mut out[at..]);
        at += size;
    }
}

// The bytes that codes spell, into the front of the output, and how many.
pub fn decode_tokens(tables: &Tables<'_>, tokens: &[u32], out: &mut [u8]) -> Result<usize, Cause>
    ensures { Decodes (lent tables.now) tokens.now out.old out.new result }
{
    if 4096 < tokens.len() {
        return Err(Cause::TooLong);
    }
    let rows = in_form(tables).ok_or(Cause::OutOfForm)?.rows;
    if let Some(unknown) = first_unknown(tokens, rows.n) {
        return Err(Cause::UnknownCode(unknown));
    }
    let size = spelled_length(&rows, tokens);
    if out.len() < size {
        return Err(Cause::TooShort);
    }
    write_spelled(&rows, tokens, &mut out[..size]);
    Ok(size)
}

// The bytes of one row, into the front of the output, and how many.
pub fn token_bytes(tables: &Tables<'_>, token: u32, out: &mut [u8]) -> Result<usize, Cause>
    ensures { Decodes (lent tables.now) (token ∷ []) out.old out.new result }
{
    let tokens = [token];
    decode_tokens(tables, &tokens, out)
}
