// From the lines of a sheet to records: a mark, a length byte and the phrase's bytes.
ghost use Rattle.std.specs.Prelude.{◌≡◌, ◌%◌, ◌∷◌, length};
ghost use Rattle.words.specs.Parts.{Put};
ghost use Rattle.text_forms.specs.Sheet.{without_return, escaped, PhraseAdded, LineAdded, FileMade};

use crate::escapes::{PhraseError, unescape};
use std::fmt;
use words::{after, front, put, put_all, until};

// A phrase file that was made: the count of its rows, and its size.
#[derive(Clone, Copy, Debug, PartialEq, Eq)]
pub struct Made {
    pub rows: usize,
    pub size: usize,
}

// Why a line makes no record.
#[derive(Clone, Copy, Debug, PartialEq, Eq)]
pub enum LineError {
    Phrase(PhraseError),
    // Its row has no room in the file.
    Full,
}

impl From<PhraseError> for LineError {
    fn from(error: PhraseError) -> LineError {
        LineError::Phrase(error)
    }
}

// The first line that makes none, counted from 1.
#[derive(Clone, Copy, Debug, PartialEq, Eq)]
pub struct SheetError {
    pub line: usize,
    pub error: LineError,
}

// The reason and what to do.
impl fmt::Display for LineError {
    fn fmt<W: fmt::Write>(&self, f: &mut fmt::Formatter<W>) -> fmt::Result {
        match self {
            LineError::Phrase(PhraseError::WrongEscape) => {
                write!(f, "a wrong escape; write \\xNN, \\t, \\n or \\\\")
            }
            LineError::Phrase(PhraseError::Empty) => write!(f, "no phrase; take the line out"),
            LineError::Phrase(PhraseError::Long) => {
                write!(f, "the phrase has over 64 bytes; shorten it")
            }
            LineError::Full => write!(f, "the file would have over 65536 bytes; take rows out"),
        }
    }
}

// A line without the CR at its end.
fn without_return(line: &[u8]) -> &[u8]
    ensures { result.now ≡ without_return line.now }
{
    line.strip_suffix(b"\r").unwrap_or(line)
}

// The phrase of a line: what stands before the first tab.
fn phrase_of(line: &[u8]) -> &[u8]
    ensures { result.now ≡ escaped line.now }
{
    until(without_return(line), 0, b'\t')
}

// A record at a place, as far as there is room.
fn put_record(file: &mut [u8], at: usize, bytes: &[u8]) -> usize
    ensures { Put file.old at (199 ∷ 81 ∷ length bytes.now % 256 ∷ bytes.now)
        file.new result }
{
    let end = put_all(file, at, &[0xc7, 0x51, (bytes.len() % 256) as u8]);
    put_all(file, end, bytes)
}

// Adds the record of a phrase, and gives the size of the file after it.
fn add_phrase(bytes: &[u8], file: &mut [u8], at: usize) -> Result<usize, LineError>
    ensures { PhraseAdded bytes.now file.old at file.new result }
{
    if file.len().saturating_sub(at) < 3 + bytes.len() {
        return Err(LineError::Full);
    }
    Ok(put_record(file, at, bytes))
}

// Adds the record of a line.
fn add_line(line: &[u8], file: &mut [u8], at: usize) -> Result<usize, LineError>
    ensures { LineAdded line.now file.old at file.new result }
{
    let mut bytes = [0u8; 64];
    let size = unescape(phrase_of(line), &mut bytes)?;
    add_phrase(front(&bytes, size), file, at)
}

// Writes the phrase file of a sheet to the front of a buffer.
pub fn make_file(sheet: &[u8], file: &mut [u8]) -> Result<Made, SheetError>
    ensures { FileMade sheet.now file.old file.new result }
{
    let mut at = 0;
    let mut size = 0;
    let mut rows = 0;
    while at < sheet.len() {
        size = match add_line(until(sheet, at, b'\n'), file, size) {
            Ok(end) => end,
            Err(error) => return Err(SheetError {
                line: rows + 1,
                error,
            }),
        };
        rows += 1;
        at = after(sheet, at, b'\n');
    }
    Ok(Made { rows, size })
}
