// A list of codes as people write it: decimal numbers with spaces, commas or line ends between them.
ghost use Rattle.std.specs.Prelude.{◌≤◌, length};
ghost use Rattle.text_forms.specs.CodeList.{CodesListed};

use words::{back, front, number};

// Codes to decode: one more than may be decoded.
pub type Codes = [u32; 4097];

// A word that is no number.
#[derive(Clone, Copy, Debug, PartialEq, Eq)]
pub struct WrongWord {
    // Its place in the text.
    pub at: usize,
}

// Whether a byte parts two numbers.
fn is_space(byte: u8) -> bool {
    matches!(byte, b' ' | b',' | 9..=13)
}

// How many bytes of a text stand before the first that parts numbers, or the first that does not.
pub fn run(text: &[u8], spaces: bool) -> usize
    ensures { result ≤ length text.now }
{
    text.iter()
        .position(|byte| is_space(*byte) != spaces)
        .unwrap_or(text.len())
}

// A number as a code; one of more than 32 bits is none, which is no row.
fn code(value: u64) -> u32 {
    u32::try_from(value).unwrap_or(u32::MAX)
}

// The codes that a text writes, as far as there is room, and their number. The line that `encode` ends with ends them
// too.
pub fn list_codes(text: &[u8], codes: &mut Codes) -> Result<usize, WrongWord>
    ensures { CodesListed text.now result }
{
    let mut at = run(text, true);
    for (count, place) in codes.iter_mut().enumerate() {
        let left = back(text, at);
        let word = front(left, run(left, false));
        if matches!(word, b"" | b"result:") {
            return Ok(count);
        }
        let Some(value) = number(word) else {
            return Err(WrongWord { at });
        };
        *place = code(value);
        at += word.len() + run(back(left, word.len()), true);
    }
    Ok(codes.len())
}
