// Rows of a phrase file, read without tables: a refused file has none.
ghost use Rattle.std.specs.Prelude.{◌≤◌, length, All};
ghost use Rattle.phrase_file.specs.Form.{rows};

use phrase_file::{num_rows, row_bytes, row_length, row_offset};

// The rows of a file from an offset on, one after the other.
#[derive(Drop)]
struct FileRows<'a> {
    file: &'a [u8],
    at: usize,
}

impl<'a> Iterator for FileRows<'a> {
    ghost use Rattle.std.specs.Prelude.{◌-◌};
    ghost use Rattle.std.specs.Iterator.{at_most};

    type Item = &'a [u8];

    ghost remaining = { λ s. at_most (length s.file.now - s.at) };

    #[tactic(auto, using(crate::proofs::Lengths::row_fits))]
    fn next(&mut self) -> Option<&'a [u8]> {
        let (file, at) = (self.file, self.at);
        let size = row_length(file, at);
        if size == 0 {
            return None;
        }
        self.at = at + 3 + size;
        Some(row_bytes(file, at))
    }
}

// All of them.
fn rows(file: &[u8]) -> FileRows<'_> {
    FileRows { file, at: 0 }
}

// The bytes of a row; none where there is no such row.
pub(crate) fn bytes_of(file: &[u8], row: usize) -> &[u8] {
    row_bytes(file, row_offset(file, row))
}

// The first row with these bytes; the count of rows if there is none.
pub(crate) fn row_with(file: &[u8], bytes: &[u8]) -> usize {
    rows(file)
        .position(|row| row == bytes)
        .unwrap_or(num_rows(file))
}

// The first row with this hash; the count of rows if there is none.
pub(crate) fn row_with_hash(file: &[u8], hash: u32, factor: u64) -> usize {
    rows(file)
        .position(|row| fnv::hash_bytes(row, factor) == hash)
        .unwrap_or(num_rows(file))
}

// The length of the longest row: no more than the file has bytes.
#[tactic(auto, using(crate::proofs::Lengths::row_fits))]
pub fn longest(file: &[u8]) -> usize
    ensures inside { result ≤ length file.now }
    ensures longest { All (λ row. length row ≤ result) (rows file.now) }
{
    let mut most = 0;
    let mut at = 0;
    loop {
        let size = row_length(file, at);
        if size == 0 {
            return most;
        }
        most = most.max(size);
        at = at + 3 + size;
    }
}
