// The codes as boxes, in bursts of 40.
use crate::characters::write_shown;
use std::io;
use std::io::Write;

// The bytes of a row as hex numbers with a space between them.
fn write_title(page: &mut impl Write, row: &[u8]) -> io::Result<()> {
    for (i, byte) in row.iter().enumerate() {
        if i != 0 {
            page.write_all(b" ")?;
        }
        write!(page, "{byte:02X}")?;
    }
    Ok(())
}

// A code: its row's bytes, as they are and as its title, the row number below, a colour by it, and a line break where
// the row has one.
fn write_code(page: &mut impl Write, row: &[u8], code: u32) -> io::Result<()> {
    let colour = code % 12;
    write!(page, "<span class=\"c{colour}\" title=\"")?;
    write_title(page, row)?;
    page.write_all(b"\">")?;
    write_shown(page, row)?;
    let end = if row.contains(&b'\n') { "<br>" } else { "" };
    writeln!(page, "<small>{code}</small></span>{end}")
}

// A burst of at most 40 codes.
fn write_burst(
    page: &mut impl Write,
    number: usize,
    file: &[u8],
    places: &[u32],
    codes: &[u32],
) -> io::Result<()> {
    write!(page, "<section>\n<h2>Burst {number}: ")?;
    match codes.len() {
        40 => page.write_all(b"40 codes, full")?,
        1 => page.write_all(b"1 code, 39 left")?,
        count => write!(
            page,
            "{count} codes, {} left",
            crate::burst_counts::left(count)
        )?,
    }
    page.write_all(b"</h2>\n<p>\n")?;
    for code in codes {
        // A row beyond the table stands at 0.
        let place = places.get(*code as usize).copied().unwrap_or(0);
        write_code(page, phrase_file::row_bytes(file, place as usize), *code)?;
    }
    page.write_all(b"</p>\n</section>\n")
}

// All bursts.
pub(crate) fn write_bursts(
    page: &mut impl Write,
    file: &[u8],
    places: &[u32],
    codes: &[u32],
) -> io::Result<()> {
    for (i, burst) in codes.chunks(40).enumerate() {
        write_burst(page, i + 1, file, places, burst)?;
    }
    Ok(())
}
