// `phrases decode FILE TEXT`
use crate::texts::{Text, read_numbers};
use causes::Cause;
use decoder::decode_tokens;
use file_commands::{Dictionary, load};
use phrase_file::num_rows;
use std::io::Read;
use std::rt::Files;
use tables::Tables;
use text_forms::{WrongWord, list_codes, run};
use tool_io::{Many, Quoted, Stop, argument_error, refused};
use words::{back, front};

// A word of the text that is no number.
fn wrong_word(rt: &impl Print, name: &[u8], text: &[u8], at: usize) -> Stop {
    let left = back(text, at);
    let word = Quoted(front(left, run(left, false)));
    let reason = format_args!("{word} is no number; give codes, as encode prints them");
    argument_error(rt, "TEXT", name, reason)
}

// Codes that cannot be decoded.
fn undecoded(rt: &impl Print, cause: Cause, file: &[u8], codes: &[u32]) -> Stop {
    match cause {
        Cause::TooLong => refused(rt, cause, "there are more than 4096 codes; cut the list"),
        Cause::UnknownCode(index) => {
            let code = codes.get(index).copied().unwrap_or(0);
            let rows = Many(num_rows(file), "row");
            let reason = format_args!(
                "code {code} is no row: the file has {rows}, numbered from 0"
            );
            refused(rt, cause, reason)
        }
        _ => refused(rt, cause, "the codes cannot be decoded"),
    }
}

// Decodes codes into a buffer: the bytes as they are, and the line for a script.
fn say_decoded(
    rt: &impl Print,
    tables: &Tables<'_>,
    codes: &[u32],
    bytes: &mut [u8; 262144],
) -> Result<(), Stop> {
    let size = match decode_tokens(tables, codes, bytes) {
        Ok(size) => size,
        Err(cause) => return Err(undecoded(rt, cause, tables.file, codes)),
    };
    let count = codes.len();
    rt.write_all(front(bytes, size))?;
    println!(rt; "\nresult: decoded codes={count} bytes={size}")?;
    Ok(())
}

// The same. The buffer is made here, where nothing else is done, as the page's is (`make_page`).
fn decode_codes(rt: &impl Print, tables: &Tables<'_>, codes: &[u32]) -> Result<(), Stop> {
    let mut bytes = [0u8; 262144];
    say_decoded(rt, tables, codes, &mut bytes)
}

// The command.
pub(crate) fn decode(
    rt: &(impl Files + Print),
    file: &[u8],
    name: &[u8],
    input: &mut impl Read,
) -> Result<(), Stop> {
    let mut dictionary = Dictionary::blank();
    load(rt, file, &mut dictionary)?;
    let mut buffer: Text = [0; 65536];
    let text = read_numbers(rt, name, input, &mut buffer)?;
    let mut codes = [0u32; 4097];
    let count = match list_codes(text, &mut codes) {
        Ok(count) => count,
        Err(WrongWord { at }) => return Err(wrong_word(rt, name, text, at)),
    };
    decode_codes(rt, &dictionary.tables(), front(&codes, count))
}
