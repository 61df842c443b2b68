// Counts of pieces of a text against `count` of each piece.
use crate::said::{Tally, say_answer};
use causes::Cause;
use interval_count::IntervalTables;
use std::io;
use tables::Tables;

// How many numbers a list has room for: one more than the longest text has bytes.
const ROOM: usize = 201;

// A list of which the first `lent` numbers are lent, or all if there are fewer.
#[derive(Drop)]
pub(crate) struct List {
    numbers: [u32; ROOM],
    lent: usize,
}

impl List {
    // A list of one number alone, of which so many are lent.
    pub(crate) fn new(number: u32, lent: usize) -> Self {
        List {
            numbers: [number; ROOM],
            lent,
        }
    }

    // What is lent, to be read.
    pub(crate) fn lent(&self) -> &[u32] {
        &self.numbers[..self.lent.min(ROOM)]
    }

    // What is lent, to be written.
    fn lent_mut(&mut self) -> &mut [u32] {
        &mut self.numbers[..self.lent.min(ROOM)]
    }
}

// The last codes and the tables of the tree of a text, and work numbers.
#[derive(Drop)]
pub(crate) struct Lists {
    pub(crate) last_codes: List,
    pub(crate) numbers: List,
    pub(crate) ends: List,
    pub(crate) depths: List,
    pub(crate) work: List,
}

impl Lists {
    // Lists for a text of so many bytes, at most 200.
    fn new(size: usize) -> Self {
        let entries = size.saturating_add(1);
        Lists {
            last_codes: List::new(0, size),
            numbers: List::new(0, entries),
            ends: List::new(0, entries),
            depths: List::new(0, entries),
            work: List::new(0, size),
        }
    }

    // Prepares them for a text.
    pub(crate) fn prepare(&mut self, tables: &Tables<'_>, text: &[u8]) -> Result<usize, Cause> {
        interval_prepare::prepare(
            tables,
            text,
            self.last_codes.lent_mut(),
            self.numbers.lent_mut(),
            self.ends.lent_mut(),
            self.depths.lent_mut(),
            self.work.lent_mut(),
        )
    }

    // The count of a piece of that text.
    pub(crate) fn count(
        &mut self,
        tables: &Tables<'_>,
        text: &[u8],
        start: usize,
        end: usize,
    ) -> Result<usize, Cause> {
        let prepared = IntervalTables {
            text,
            last_codes: self.last_codes.lent(),
            numbers: self.numbers.lent(),
            ends: self.ends.lent(),
            depths: self.depths.lent(),
        };
        prepared.count(tables, start, end, self.work.lent_mut())
    }
}

// Prints the counts of four pieces of "abcd", two of which are refused.
pub(crate) fn say_samples(rt: &impl Print, tables: &Tables<'_>) -> io::Result<()> {
    let text = b"abcd";
    let mut lists = Lists::new(text.len());
    // A refusal would show in the counts.
    let _ = lists.prepare(tables, text);
    say_answer(rt, "P6 interval 1 to 4", lists.count(tables, text, 1, 4))?;
    say_answer(rt, "P7 interval 2 to 2", lists.count(tables, text, 2, 2))?;
    say_answer(rt, "interval 3 to 2", lists.count(tables, text, 3, 2))?;
    say_answer(rt, "interval 0 to 5", lists.count(tables, text, 0, 5))
}

// Compares the counts of all pieces of a text of at most 200 bytes.
pub(crate) fn say_pieces(
    rt: &impl Print,
    name: &str,
    tables: &Tables<'_>,
    text: &[u8],
) -> io::Result<()> {
    let mut lists = Lists::new(text.len());
    let mut work = [0; 200];
    let mut tally = Tally::default();
    // A refusal would show in the counts.
    let _ = lists.prepare(tables, text);
    for start in 0..=text.len() {
        for end in start..=text.len() {
            let wanted = byte_pair_encoding::count(tables, &text[start..end], &mut work);
            tally.compare(lists.count(tables, text, start, end), wanted);
        }
    }
    println!(rt; "intervals of {name}: {tally}")
}
