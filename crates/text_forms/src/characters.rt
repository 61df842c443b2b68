// The bytes of a row as the page shows them: valid UTF-8 as it is, but for control characters and numbers that are no
// characters.
use std::io;
use std::io::Write;
use words::{back, front};

// How many bytes the character of more than one byte has that a row begins with; 0 if there is none to show. Numbers
// that are no characters are FDD0 to FDEF, and the last two of each 65,536.
fn longer_character(row: &[u8]) -> usize {
    match row {
        [0xef, 0xb7, 0x90..=0xaf, ..] => 0,
        [0xef, 0xbf, 0xbe..=0xbf, ..] => 0,
        [0xf0..=0xf4, second, 0xbf, 0xbe..=0xbf, ..] if second % 16 == 15 => 0,
        [0xc2, 0xa0..=0xbf, ..] => 2,
        [0xc3..=0xdf, 0x80..=0xbf, ..] => 2,
        [0xe0, 0xa0..=0xbf, 0x80..=0xbf, ..] => 3,
        [0xed, 0x80..=0x9f, 0x80..=0xbf, ..] => 3,
        [0xe1..=0xec | 0xee..=0xef, 0x80..=0xbf, 0x80..=0xbf, ..] => 3,
        [0xf0, 0x90..=0xbf, 0x80..=0xbf, 0x80..=0xbf, ..] => 4,
        [0xf1..=0xf3, 0x80..=0xbf, 0x80..=0xbf, 0x80..=0xbf, ..] => 4,
        [0xf4, 0x80..=0x8f, 0x80..=0xbf, 0x80..=0xbf, ..] => 4,
        _ => 0,
    }
}

// A byte that begins no longer character.
fn write_single(page: &mut impl Write, byte: u8) -> io::Result<()> {
    match byte {
        b'\n' => page.write_all(b"<i>&crarr;</i>"),
        b' ' => page.write_all(b"<u> </u>"),
        b'&' => page.write_all(b"&amp;"),
        b'<' => page.write_all(b"&lt;"),
        b'>' => page.write_all(b"&gt;"),
        0x21..=0x7e => page.write_all(&[byte]),
        _ => write!(page, "<i>\\x{byte:02X}</i>"),
    }
}

// Shows a row.
pub(crate) fn write_shown(page: &mut impl Write, row: &[u8]) -> io::Result<()> {
    let mut rest = row;
    while let Some(byte) = rest.first() {
        let size = longer_character(rest);
        if size == 0 {
            write_single(page, *byte)?;
            rest = back(rest, 1);
        } else {
            page.write_all(front(rest, size))?;
            rest = back(rest, size);
        }
    }
    Ok(())
}
