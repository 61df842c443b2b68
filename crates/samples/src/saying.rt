// What is printed of the answers of calls.
use crate::buffers::Buffer;
use causes::{Cause, Told};
use std::io;

// The number and the place of an answer.
pub(crate) fn say_answer<T: Told + Copy>(
    rt: &impl Print,
    answer: Result<T, Cause>,
) -> io::Result<()> {
    let number = causes::answer_number(answer);
    let place = causes::answer_place(answer);
    print!(rt; " {number} {place}")
}

// The codes that an encoder wrote.
pub(crate) fn say_codes(rt: &impl Print, codes: &[u32]) -> io::Result<()> {
    print!(rt; ":")?;
    for code in codes {
        print!(rt; " {code}")?;
    }
    Ok(())
}

// The answer of a call that decodes, and the bytes.
pub(crate) fn say_bytes<const N: usize>(
    rt: &impl Print,
    answer: Result<usize, Cause>,
    bytes: &Buffer<u8, N>,
) -> io::Result<()> {
    let end = answer.unwrap_or(0);
    say_answer(rt, answer)?;
    print!(rt; ": ")?;
    rt.write_all(bytes.front(end))?;
    say_kept(rt, bytes.is_kept(end))
}

// Whether the buffers beyond what the call may write are as before.
// Kept: no plainer: the flag is what is said, and no other step hangs on it.
pub(crate) fn say_kept(rt: &impl Print, as_before: bool) -> io::Result<()> {
    if as_before {
        println!(rt; "; the rest as before")
    } else {
        println!(rt; "; WRITTEN BEYOND")
    }
}
