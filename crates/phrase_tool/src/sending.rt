// `phrases encode`, `shortest` and `count`: the codes of a text, and their number.
use crate::bursts::{BurstFields, InBursts};
use crate::texts::{Text, read_text};
use byte_pair_encoding::{encode_minimal, encode_via_backtracking};
use causes::Cause;
use file_commands::{Dictionary, load};
use std::io;
use std::io::Read;
use std::rt::Files;
use tables::Tables;
use tool_io::{Codes, Reason, Stop, refused};
use words::front;

// What a call over a text answers, or its refusal is said.
pub(crate) fn told<T: Drop>(
    rt: &impl Print,
    answer: Result<T, Cause>,
    file: &[u8],
) -> Result<T, Stop> {
    match answer {
        Ok(value) => Ok(value),
        Err(cause) => Err(refused(
            rt,
            cause,
            Reason {
                cause,
                file,
                factor: 1,
            },
        )),
    }
}

// A list of codes, or the work numbers of a call.
pub(crate) type Numbers = [u32; 4096];

// The codes that an encoder gives for a text, at the front of a buffer.
fn encoded<'a, E: Fn(&Tables<'_>, &[u8], &mut [u32], &mut [u32]) -> Result<usize, Cause>>(
    rt: &impl Print,
    encoder: E,
    tables: &Tables<'_>,
    text: &[u8],
    codes: &'a mut Numbers,
) -> Result<&'a [u32], Stop>
    requires { E.IsAlwaysCallable encoder }
{
    let mut work = [0u32; 4096];
    let count = told(rt, encoder(tables, text, codes, &mut work), tables.file)?;
    Ok(front(codes, count))
}

// The codes of a text as they are sent, at the front of a buffer.
pub(crate) fn sent<'a>(
    rt: &impl Print,
    tables: &Tables<'_>,
    text: &[u8],
    codes: &'a mut Numbers,
) -> Result<&'a [u32], Stop> {
    encoded(rt, encode_via_backtracking, tables, text, codes)
}

// The codes on a line, and the line for a script.
fn say_codes(rt: &impl Print, name: &str, codes: &[u32]) -> io::Result<()> {
    let (fields, codes) = (BurstFields(codes.len()), Codes(codes));
    println!(rt; "{codes}\nresult: {name} {fields}")
}

// `encode`: the codes as they are sent.
pub(crate) fn encode(
    rt: &(impl Files + Print),
    file: &[u8],
    text: &[u8],
    input: &mut impl Read,
) -> Result<(), Stop> {
    let mut dictionary = Dictionary::blank();
    load(rt, file, &mut dictionary)?;
    let mut buffer: Text = [0; 65536];
    let text = read_text(rt, text, input, &mut buffer)?;
    let mut codes: Numbers = [0; 4096];
    let codes = sent(rt, &dictionary.tables(), text, &mut codes)?;
    say_codes(rt, "encoded", codes)?;
    Ok(())
}

// `shortest`: the fewest codes.
pub(crate) fn shortest(
    rt: &(impl Files + Print),
    file: &[u8],
    text: &[u8],
    input: &mut impl Read,
) -> Result<(), Stop> {
    let mut dictionary = Dictionary::blank();
    load(rt, file, &mut dictionary)?;
    let mut buffer: Text = [0; 65536];
    let text = read_text(rt, text, input, &mut buffer)?;
    let mut codes: Numbers = [0; 4096];
    let codes = encoded(rt, encode_minimal, &dictionary.tables(), text, &mut codes)?;
    say_codes(rt, "shortest", codes)?;
    Ok(())
}

// `count`: the number of codes and of bursts.
pub(crate) fn count(
    rt: &(impl Files + Print),
    file: &[u8],
    text: &[u8],
    input: &mut impl Read,
) -> Result<(), Stop> {
    let mut dictionary = Dictionary::blank();
    load(rt, file, &mut dictionary)?;
    let mut buffer: Text = [0; 65536];
    let text = read_text(rt, text, input, &mut buffer)?;
    let mut work: Numbers = [0; 4096];
    let answer = byte_pair_encoding::count(&dictionary.tables(), text, &mut work);
    let count = told(rt, answer, dictionary.file())?;
    let (codes, fields) = (InBursts(count), BurstFields(count));
    println!(rt; "{codes}\nresult: counted {fields}")?;
    Ok(())
}
