// The page of `phrases show`: a text cut into its codes, in bursts of 40. No script, no link; docs/page.md has it
// byte for byte.
ghost use Rattle.text_forms.specs.Page.{Kept};

use crate::boxes::write_bursts;
use crate::burst_counts::{bursts, left};
use crate::head::HEAD;
use std::io;
use std::io::Write;

// The page of a text of so many bytes.
fn write_page(
    page: &mut impl Write,
    size: usize,
    file: &[u8],
    places: &[u32],
    codes: &[u32],
) -> io::Result<()> {
    let count = codes.len();
    page.write_all(HEAD.as_bytes())?;
    writeln!(page, "<li>Bytes <b>{size}</b></li>")?;
    writeln!(page, "<li>Codes <b>{count}</b></li>")?;
    writeln!(page, "<li>Bursts <b>{}</b></li>", bursts(count))?;
    writeln!(
        page,
        "<li>Left in the last burst <b>{}</b></li>",
        left(count)
    )?;
    page.write_all(b"</ul>\n")?;
    write_bursts(page, file, places, codes)?;
    page.write_all(b"</body>\n</html>\n")
}

// Writes the page of a text of `size` bytes to the front of a buffer, as far as there is room, and gives its length.
// No page of a text of 4,096 bytes has more than 400,000.
pub fn put_page(out: &mut [u8], size: usize, file: &[u8], places: &[u32], codes: &[u32]) -> usize
    ensures { Kept out.old out.new result }
{
    let room = out.len();
    let mut page = out;
    // A page that is cut off where the buffer ends is the only failure.
    let _ = write_page(&mut page, size, file, places, codes);
    room.saturating_sub(page.len())
}
