// The tables and the search area: lent to a build and to the calls after it.
use crate::buffers::Buffer;
use crate::fields::{entry, size, split_word};
use crate::saying::say_answer;
use placed_rows::NONE;
use std::io;
use tables::Tables;

// How many numbers of the search area a build fills.
const AREA: usize = 16384;

// The tables and the search area.
#[derive(Drop)]
pub(crate) struct Lists {
    pub(crate) places: Buffer<u32, 4200>,
    pub(crate) lefts: Buffer<u32, 4200>,
    pub(crate) rights: Buffer<u32, 4200>,
    pub(crate) prefixes: Buffer<u32, 4200>,
    pub(crate) area: Buffer<u32, 16400>,
}

impl Lists {
    // Zeros, all of them lent.
    pub(crate) fn new() -> Self {
        Lists {
            places: Buffer::new(),
            lefts: Buffer::new(),
            rights: Buffer::new(),
            prefixes: Buffer::new(),
            area: Buffer::new(),
        }
    }

    // Lends all of each.
    pub(crate) fn lend_all(&mut self) {
        self.places.lend_all();
        self.lefts.lend_all();
        self.rights.lend_all();
        self.prefixes.lend_all();
        self.area.lend_all();
    }

    // What is lent, with a phrase file.
    pub(crate) fn lent<'a>(&'a self, file: &'a [u8]) -> Tables<'a> {
        Tables {
            file,
            places: self.places.lent(),
            lefts: self.lefts.lent(),
            rights: self.rights.lent(),
            prefixes: self.prefixes.lent(),
            area: self.area.lent(),
        }
    }

    // `set TABLE ENTRY VALUE`: writes an entry of a table, if it has such an entry.
    pub(crate) fn set(&mut self, arguments: &[u8]) {
        let (name, left) = split_word(arguments);
        let (_, value) = split_word(left);
        match name {
            b"places" => self.places.put(size(left), entry(value)),
            b"lefts" => self.lefts.put(size(left), entry(value)),
            b"rights" => self.rights.put(size(left), entry(value)),
            b"prefixes" => self.prefixes.put(size(left), entry(value)),
            _ => {}
        }
    }

    // `build FACTOR`, over buffers that hold canaries.
    pub(crate) fn build(&mut self, rt: &impl Print, file: &[u8], factor: u64) -> io::Result<()> {
        self.places.fill();
        self.lefts.fill();
        self.rights.fill();
        self.prefixes.fill();
        self.area.fill();
        let answer = dictionary::from_dictionary(
            file,
            factor,
            self.places.lent_mut(),
            self.lefts.lent_mut(),
            self.rights.lent_mut(),
            self.prefixes.lent_mut(),
            self.area.lent_mut(),
        );
        say_answer(rt, answer)?;
        let n = count_rows(file);
        let places = state(&self.places, n);
        let lefts = state(&self.lefts, n);
        let rights = state(&self.rights, n);
        let prefixes = state(&self.prefixes, n);
        let area = state(&self.area, AREA);
        println!(rt; " {places} {lefts} {rights} {prefixes} {area}")
    }

    // `entries ROW`: its place, left part, right part and prefix, 0 beyond a table.
    pub(crate) fn say_entries(&self, rt: &impl Print, row: usize) -> io::Result<()> {
        let place = at(&self.places, row);
        let left = at(&self.lefts, row);
        let right = at(&self.rights, row);
        let prefix = at(&self.prefixes, row);
        println!(rt; " {row} {place} {left} {right} {prefix}")
    }
}

// An entry of a table, 0 beyond it.
fn at(table: &Buffer<u32, 4200>, row: usize) -> u32 {
    table.items.get(row).copied().unwrap_or(0)
}

// The count of rows of a file, 0 if its form is refused.
fn count_rows(file: &[u8]) -> usize {
    phrase_file::check_file(file).unwrap_or(0)
}

// What a build did to a buffer of which it fills the first n numbers.
fn state<const N: usize>(buffer: &Buffer<u32, N>, n: usize) -> &'static str {
    if buffer.is_kept(0) {
        return "unchanged";
    }
    if !buffer.is_kept(n) {
        return "written beyond";
    }
    // Kept: C interface: the tables that a call fills are numbers, of which this one says none.
    if buffer.front(n).iter().all(|number| *number == NONE) {
        return "none";
    }
    "filled"
}
