// The phrase file: its records are found, counted and checked, and their places written to a table. The length is
// looked at before the records, so that a file that is too long is told so whatever else is wrong with it.
#![tactic(auto)]

ghost use Rattle.std.specs.Prelude.{◌≡◌, ◌++◌, not, length, get_or, drop, position};
ghost use Rattle.phrase_file.specs.Form.{row_length, row_bytes, places, rows};
ghost use Rattle.phrase_file.specs.Checks.{check_of};
ghost use Rattle.phrase_file.specs.Post.{Scanned, PlacesFit};

use causes::Cause;

// The length of the row in the record at an offset, 0 where no whole record stands.
// Kept: row_length (a definition) needs it: 0 is no row's length, and an Option would say it twice.
pub fn row_length(file: &[u8], at: usize) -> usize
    ensures { result ≡ row_length file.now at }
{
    if file.len() <= at {
        return 0;
    }
    let left = file.len() - at;
    if left < 4 {
        return 0;
    }
    if file[at] != 0xc7 {
        return 0;
    }
    if file[at + 1] != 0x51 {
        return 0;
    }
    let length = file[at + 2] as usize;
    if length < 1 {
        return 0;
    }
    if 64 < length {
        return 0;
    }
    if left < 3 + length {
        return 0;
    }
    length
}

// The bytes of the row in the record at an offset, none where no whole record stands.
pub fn row_bytes(file: &[u8], at: usize) -> &[u8]
    ensures { result.now ≡ row_bytes file.now at }
{
    let length = row_length(file, at);
    if length == 0 {
        return &file[..0];
    }
    let start = at + 3;
    let end = start + length;
    &file[start..end]
}

// The records that follow each other from an offset on, by their places. Where there is none left, the offset is where
// the records end.
#[derive(Drop)]
struct FileRecords<'a> {
    file: &'a [u8],
    at: usize,
}

impl<'a> FileRecords<'a> {
    // The records of a file.
    fn new(file: &'a [u8]) -> FileRecords<'a>
        ensures file_is { result.file.now ≡ file.now }
        ensures at_start { result.at ≡ 0 }
    {
        FileRecords { file, at: 0 }
    }
}

impl<'a> Iterator for FileRecords<'a> {
    ghost use Rattle.std.specs.Iterator.{item_count};
    ghost use Rattle.phrase_file.specs.Walk.{places_left, Walks};

    type Item = usize;

    ghost next_gives = { Walks };

    ghost remaining = { item_count places_left };

    #[inline(always)]
    fn next(&mut self) -> Option<usize> {
        let length = row_length(self.file, self.at);
        if length == 0 {
            return None;
        }
        let place = self.at;
        self.at = place + 3 + length;
        Some(place)
    }
}

// How many records follow each other from the file's start, where they end, and which byte values have a row.
#[derive(Drop)]
pub struct FileScan {
    pub n: usize,
    pub end: usize,
    pub seen: [bool; 256],
}

pub fn scan(file: &[u8]) -> FileScan
    ensures { Scanned file.now result.n result.end result.seen }
{
    let mut seen = [false; 256];
    let mut records = FileRecords::new(file);
    let mut n = 0;
    while let Some(place) = records.next() {
        let length = file[place + 2];
        if length == 1 {
            let byte = file[place + 3] as usize;
            seen[byte] = true;
        }
        n += 1;
    }
    FileScan {
        n,
        end: records.at,
        seen,
    }
}

// The count of rows.
pub fn num_rows(file: &[u8]) -> usize
    ensures { result ≡ length (rows file.now) }
{
    scan(file).n
}

// The place of a row, the file's length where there is no such row.
// Kept: no plainer: what is read there is the row's bytes, and at the file's end there are none.
pub fn row_offset(file: &[u8], row: usize) -> usize
    ensures { result ≡ get_or (places file.now) row (length file.now) }
{
    FileRecords::new(file).nth(row).unwrap_or(file.len())
}

// Writes the places of the rows to the front of a table.
pub fn fill_places(file: &[u8], table: &mut [u32])
    requires { PlacesFit file.now table.old }
    ensures { table.new ≡ places file.now ++ drop (length (places file.now))
        table.old }
{
    for (row, place) in FileRecords::new(file).enumerate() {
        table[row] = place as u32;
    }
}

// The lowest byte value that was not seen, none if all were.
fn lowest_missing(seen: &[bool; 256]) -> Option<usize>
    ensures { result ≡ position not seen.now }
{
    seen.iter().position(|seen| !*seen)
}

// The refusals 2, 3 and 4 of a file, else its count of rows.
pub fn check_file(file: &[u8]) -> Result<usize, Cause>
    ensures { result ≡ check_of file.now }
{
    if 65536 < file.len() {
        return Err(Cause::BadRecord(65536));
    }
    let found = scan(file);
    let n = found.n;
    let end = found.end;
    if end < file.len() {
        return Err(Cause::BadRecord(end));
    }
    if n < 256 {
        return Err(Cause::RowCount(n));
    }
    if 4096 < n {
        return Err(Cause::RowCount(n));
    }
    match lowest_missing(&found.seen) {
        Some(missing) => Err(Cause::MissingByte(missing as u8)),
        None => Ok(n),
    }
}
