// `phrases show FILE TEXT OUT`
use crate::bursts::{BurstFields, InBursts};
use crate::sending::{Numbers, sent};
use crate::texts::{Text, read_text};
use file_commands::{Dictionary, load};
use std::io::Read;
use std::rt::Files;
use tables::Tables;
use text_forms::put_page;
use tool_io::{Quoted, Stop, file_error, write_named};
use words::front;

// Writes the page of the codes of a text of `size` bytes by way of a buffer.
fn write_page(
    rt: &(impl Files + Print),
    tables: &Tables<'_>,
    size: usize,
    codes: &[u32],
    out: &[u8],
    page: &mut [u8; 524288],
) -> Result<(), Stop> {
    let end = put_page(page, size, tables.file, tables.places, codes);
    match write_named(rt, out, front(page, end)) {
        Ok(()) => Ok(()),
        Err(error) => Err(file_error(rt, "OUT", out, &error)),
    }
}

// The same. The page's buffer is made here, where nothing else is done: the prover takes long for each step beside an
// array of this size.
fn make_page(
    rt: &(impl Files + Print),
    tables: &Tables<'_>,
    size: usize,
    codes: &[u32],
    out: &[u8],
) -> Result<(), Stop> {
    let mut page = [0u8; 524288];
    write_page(rt, tables, size, codes, out, &mut page)
}

// The command: writes the page, and says so.
pub(crate) fn show(
    rt: &(impl Files + Print),
    file: &[u8],
    text: &[u8],
    out: &[u8],
    input: &mut impl Read,
) -> Result<(), Stop> {
    let mut dictionary = Dictionary::blank();
    load(rt, file, &mut dictionary)?;
    let mut buffer: Text = [0; 65536];
    let text = read_text(rt, text, input, &mut buffer)?;
    let tables = dictionary.tables();
    let mut codes: Numbers = [0; 4096];
    let codes = sent(rt, &tables, text, &mut codes)?;
    make_page(rt, &tables, text.len(), codes, out)?;
    let (name, codes, fields) = (Quoted(out), InBursts(codes.len()), BurstFields(codes.len()));
    println!(rt; "{name}: {codes}\nresult: shown {fields}")?;
    Ok(())
}
