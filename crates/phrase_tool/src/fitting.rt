// `phrases fits FILE TEXT BURSTS`
use crate::sending::{Numbers, told};
use crate::texts::{Text, read_text};
use byte_pair_encoding::count_till_limit;
use file_commands::{Dictionary, load};
use std::io::Read;
use std::rt::Files;
use tool_io::{Many, Stop, argument_error};
use words::number;

// The command.
pub(crate) fn fits(
    rt: &(impl Files + Print),
    file: &[u8],
    text: &[u8],
    given: &[u8],
    input: &mut impl Read,
) -> Result<(), Stop> {
    let mut dictionary = Dictionary::blank();
    load(rt, file, &mut dictionary)?;
    let mut buffer: Text = [0; 65536];
    let text = read_text(rt, text, input, &mut buffer)?;
    let Some(bursts @ 0..=103) = number(given) else {
        let reason = "give a number from 0 to 103; 103 bursts hold every text";
        return Err(argument_error(rt, "BURSTS", given, reason));
    };
    let limit = 40 * bursts;
    let mut work: Numbers = [0; 4096];
    let answer = count_till_limit(&dictionary.tables(), text, limit, &mut work);
    match told(rt, answer, dictionary.file())? {
        Some(count) => {
            let codes = Many(count, "code");
            let left = limit.saturating_sub(count as u64);
            println!(rt; "fits: {codes}, {left} left\nresult: fits codes={count} left={left}")?;
        }
        None => {
            let codes = Many(limit as usize, "code");
            println!(rt; "over: more than {codes}\nresult: over limit={limit}")?;
        }
    }
    Ok(())
}
