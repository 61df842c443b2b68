// From the name of a phrase file to its tables, for all commands.
ghost use Rattle.std.specs.Prelude.{◌≡◌, ◌≤◌, length, take, OnOk};
ghost use Rattle.file_commands.specs.Loading.{Loads, Kept};

use causes::Cause;
use std::io;
use std::rt::Files;
use tables::Tables;
use tool_io::{Fields, Quoted, ReadError, Reason, Refused, Stop, file_error, read_named, refused};
use words::front;

// The factors that are tried, from 1 on, where two different rows have one hash.
pub const FACTORS: u64 = 64;

// The buffers of a phrase file, which stands at the front of its own, and of its tables.
#[derive(Drop)]
pub struct Dictionary {
    bytes: [u8; 65536],
    size: usize,
    places: [u32; 4096],
    lefts: [u32; 4096],
    rights: [u32; 4096],
    prefixes: [u32; 4096],
    area: [u32; 16384],
}

impl Dictionary {
    // Buffers before a file is read.
    pub fn blank() -> Dictionary
        ensures { result.size ≡ 0 }
    {
        Dictionary {
            bytes: [0; 65536],
            size: 0,
            places: [0; 4096],
            lefts: [0; 4096],
            rights: [0; 4096],
            prefixes: [0; 4096],
            area: [0; 16384],
        }
    }

    // The phrase file.
    pub fn file(&self) -> &[u8]
        ensures bytes { result.now ≡ take self.now.size self.now.bytes }
        ensures inside { length result.now ≤ 65536 }
    {
        front(&self.bytes, self.size)
    }

    // Reads a file of this name.
    pub(crate) fn read(&mut self, rt: &impl Files, name: &[u8]) -> Result<(), ReadError>
        ensures { Loads result self.new }
    {
        self.size = read_named(rt, name, &mut self.bytes)?;
        Ok(())
    }

    // Builds the tables with a factor, and gives the count of rows.
    pub(crate) fn build(&mut self, factor: u64) -> Result<usize, Cause>
        ensures { Kept self.old self.new }
    {
        dictionary::from_dictionary(
            front(&self.bytes, self.size),
            factor,
            &mut self.places,
            &mut self.lefts,
            &mut self.rights,
            &mut self.prefixes,
            &mut self.area,
        )
    }

    // The lowest of the factors tried under which no two rows clash, if there is one.
    pub(crate) fn find_factor(&mut self) -> Option<u64>
        ensures { Kept self.old self.new }
    {
        for factor in 1..=FACTORS {
            if !matches!(self.build(factor), Err(Cause::SameHash(_))) {
                return Some(factor);
            }
        }
        None
    }

    // The tables, for the calls of the library.
    pub fn tables(&self) -> Tables<'_>
        ensures file { result.file.now ≡ take self.now.size self.now.bytes }
        ensures lengths { (length result.places.now ≡ 4096) × (length result.lefts.now ≡ 4096)
            × (length result.rights.now ≡ 4096) × (length result.prefixes.now ≡ 4096)
            × (length result.area.now ≡ 16384) }
    {
        Tables {
            file: self.file(),
            places: &self.places,
            lefts: &self.lefts,
            rights: &self.rights,
            prefixes: &self.prefixes,
            area: &self.area,
        }
    }
}

// Two rows with one hash under a factor: a factor that helps is named, if one of those tried does.
fn say_clash(
    rt: &impl Print,
    cause: Cause,
    name: &[u8],
    dictionary: &mut Dictionary,
    factor: u64,
) -> io::Result<()> {
    let other = dictionary.find_factor();
    let (refused, fields, name) = (Refused(cause), Fields(cause), Quoted(name));
    let file = dictionary.file();
    let reason = Reason {
        cause,
        file,
        factor,
    };
    print!(rt; "{refused}{reason}\n")?;
    match other {
        Some(other) => {
            println!(rt; "under factor {other} no two rows clash: phrases check {name} {other}")?;
            println!(rt; "result: {fields} factor={other}")
        }
        None => {
            print!(rt; "none of the factors 1 to 64 helps: take one of the two words out, ")?;
            println!(rt; "or try a larger factor\nresult: {fields} factor=none")
        }
    }
}

// Builds the tables of the file of this name with a factor, and gives the count of rows; or says the refusal.
pub(crate) fn build(
    rt: &impl Print,
    name: &[u8],
    dictionary: &mut Dictionary,
    factor: u64,
) -> Result<usize, Stop>
    ensures { OnOk result (Kept dictionary.old dictionary.new) }
{
    match dictionary.build(factor) {
        Ok(rows) => Ok(rows),
        Err(cause @ Cause::SameHash(_)) => {
            say_clash(rt, cause, name, dictionary, factor)?;
            Err(Stop::Said)
        }
        Err(cause) => {
            let file = dictionary.file();
            Err(refused(
                rt,
                cause,
                Reason {
                    cause,
                    file,
                    factor,
                },
            ))
        }
    }
}

// Reads a phrase file, of at most 65,536 bytes, or says why it cannot. A longer one has cause 2.
pub(crate) fn read_file(
    rt: &(impl Files + Print),
    name: &[u8],
    dictionary: &mut Dictionary,
) -> Result<(), Stop>
    ensures { Loads result dictionary.new }
{
    match dictionary.read(rt, name) {
        Ok(()) => Ok(()),
        Err(ReadError::Over) => {
            let cause = Cause::BadRecord(65536);
            Err(refused(
                rt,
                cause,
                Reason {
                    cause,
                    file: b"",
                    factor: 1,
                },
            ))
        }
        Err(ReadError::Failed(error)) => Err(file_error(rt, "FILE", name, &error)),
    }
}

// Reads and builds a phrase file, or says why it cannot. The factor is the first that helps, else 1: codes do not
// depend on it.
pub fn load(rt: &(impl Files + Print), name: &[u8], dictionary: &mut Dictionary) -> Result<(), Stop>
    ensures { Loads result dictionary.new }
{
    read_file(rt, name, dictionary)?;
    let factor = dictionary.find_factor().unwrap_or(1);
    build(rt, name, dictionary, factor)?;
    Ok(())
}
