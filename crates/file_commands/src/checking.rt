// `phrases check FILE [FACTOR]`
use crate::loading::{Dictionary, build, read_file};
use std::io;
use std::rt::Files;
use tool_io::{Many, Stop, argument_error, longest};
use words::number;

// What is said of an accepted file of so many rows.
fn say_accepted(rt: &impl Print, file: &[u8], rows: usize) -> io::Result<()> {
    let most = longest(file);
    let free = 4096usize.wrapping_sub(rows);
    let (many_rows, bytes, numbers) = (Many(rows, "row"), Many(most, "byte"), Many(free, "number"));
    println!(rt; "accepted: {many_rows}, the longest of {bytes}, {numbers} free up to 4096")?;
    println!(rt; "result: accepted rows={rows} longest={most} free={free}")
}

// The factor of an argument, 1 where none is given.
fn factor_of(rt: &impl Print, factor: Option<&[u8]>) -> Result<u64, Stop> {
    let Some(given) = factor else {
        return Ok(1);
    };
    match number(given) {
        Some(value) => Ok(value),
        None => Err(argument_error(rt, "FACTOR", given, "it is no number of 64 bits")),
    }
}

// The command.
pub fn check(rt: &(impl Files + Print), name: &[u8], factor: Option<&[u8]>) -> Result<(), Stop> {
    let factor = factor_of(rt, factor)?;
    let mut dictionary = Dictionary::blank();
    read_file(rt, name, &mut dictionary)?;
    let rows = build(rt, name, &mut dictionary, factor)?;
    say_accepted(rt, dictionary.file(), rows)?;
    Ok(())
}
