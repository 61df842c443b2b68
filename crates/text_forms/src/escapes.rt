// The escapes of the sheet: \xNN is the byte NN (hex), \t a tab, \n a line end, \\ a backslash; any other byte is
// itself.
ghost use Rattle.std.specs.Prelude.{◌≡◌};
ghost use Rattle.text_forms.specs.Escapes.{value_of, backslashed, first_digit, second_digit, step_of, end_of};
ghost use Rattle.text_forms.specs.Escapes.{Unescaped};

// Where a reader stands: outside an escape, after its backslash, after \x, after \x and the first digit, whose value
// is held.
#[derive(Clone, Copy)]
pub enum Reading {
    Plain,
    Escape,
    High,
    Low(u8),
}

// What the next byte does: it writes a byte, and an escape ends; it leads further into an escape; it is wrong.
#[derive(Clone, Copy)]
pub enum Step {
    Writes(u8),
    Goes(Reading),
    Wrong,
}

// Why a line is no phrase.
#[derive(Clone, Copy, Debug, PartialEq, Eq)]
pub enum PhraseError {
    Empty,
    // More bytes than the buffer has room for.
    Long,
    WrongEscape,
}

// The value of a hex digit, small or large.
fn hex_value(byte: u8) -> Option<u8>
    ensures { result ≡ value_of byte }
{
    match byte {
        b'0'..=b'9' => Some(byte - b'0'),
        b'A'..=b'F' => Some(byte - b'A' + 10),
        b'a'..=b'f' => Some(byte - b'a' + 10),
        _ => None,
    }
}

// The byte after a backslash.
fn after_backslash(byte: u8) -> Step
    ensures { result ≡ backslashed byte }
{
    match byte {
        b'x' => Step::Goes(Reading::High),
        b't' => Step::Writes(b'\t'),
        b'n' => Step::Writes(b'\n'),
        b'\\' => Step::Writes(b'\\'),
        _ => Step::Wrong,
    }
}

// The first digit of \xNN.
fn first_digit(byte: u8) -> Step
    ensures { result ≡ first_digit (value_of byte) }
{
    match hex_value(byte) {
        Some(value) => Step::Goes(Reading::Low(value)),
        None => Step::Wrong,
    }
}

// The second digit of \xNN.
fn second_digit(high: u8, byte: u8) -> Step
    ensures { result ≡ second_digit high (value_of byte) }
{
    match hex_value(byte) {
        Some(low) => Step::Writes(high % 16 * 16 + low % 16),
        None => Step::Wrong,
    }
}

// What a byte does.
fn take_byte(reading: Reading, byte: u8) -> Step
    ensures { result ≡ step_of reading byte }
{
    match reading {
        Reading::Plain if byte == b'\\' => Step::Goes(Reading::Escape),
        Reading::Plain => Step::Writes(byte),
        Reading::Escape => after_backslash(byte),
        Reading::High => first_digit(byte),
        Reading::Low(high) => second_digit(high, byte),
    }
}

// What a phrase of so many bytes is once all of its line is read.
fn ended(reading: Reading, size: usize) -> Result<usize, PhraseError>
    ensures { result ≡ end_of reading size }
{
    match reading {
        Reading::Plain if size == 0 => Err(PhraseError::Empty),
        Reading::Plain => Ok(size),
        Reading::Escape | Reading::High | Reading::Low(_) => Err(PhraseError::WrongEscape),
    }
}

// Writes the bytes of an escaped phrase to the front of a buffer, as many as it has room for, and gives their number.
pub fn unescape(line: &[u8], out: &mut [u8]) -> Result<usize, PhraseError>
    ensures { Unescaped line.now out.old out.new result }
{
    let mut reading = Reading::Plain;
    let mut size = 0;
    for byte in line {
        match take_byte(reading, *byte) {
            Step::Writes(written) => {
                if out.len() <= size {
                    return Err(PhraseError::Long);
                }
                out[size] = written;
                size += 1;
                reading = Reading::Plain;
            }
            Step::Goes(next) => reading = next,
            Step::Wrong => return Err(PhraseError::WrongEscape),
        }
    }
    ended(reading, size)
}
