// Files by name: reading a whole one and writing a whole one. The system's calls take a name as text, so one that is
// not UTF-8 is no name of a file.
ghost use Rattle.std.specs.Prelude.{◌≡◌, length};
ghost use Rattle.std.specs.Io.{ReadsAtMost};

use std::fs::{OpenFile, OpenOptions, Permissions};
use std::io::{ErrorKind, Read, Write};
use std::os::unix::fs::{OpenOptionsExt, PermissionsExt};
use std::rt::Files;
use std::{fs, io};

// Why a file or a text was not read.
#[derive(Debug, Drop)]
pub enum ReadError {
    // It has more bytes than the buffer holds.
    Over,
    // The system's error.
    Failed(io::Error),
}

impl From<io::Error> for ReadError {
    fn from(error: io::Error) -> ReadError {
        ReadError::Failed(error)
    }
}

// A name as the system's calls take it.
fn path_of(name: &[u8]) -> io::Result<&str> {
    match std::str::from_utf8(name) {
        Ok(path) => Ok(path),
        Err(_) => Err(io::Error::from(ErrorKind::InvalidInput)),
    }
}

// Reads until the buffer is full or the input ends, and gives how many bytes stand at the front of the buffer.
pub fn read_full(input: &mut impl Read, buffer: &mut [u8]) -> io::Result<usize>
    ensures { ReadsAtMost result buffer.new }
{
    let mut size = 0;
    while size < buffer.len() {
        let got = input.read(&mut buffer[size..])?;
        if got == 0 {
            return Ok(size);
        }
        size += got;
    }
    Ok(size)
}

// All that an input gives, if it is no more than the buffer holds: how many bytes stand at the front of the buffer.
// Where the buffer is full, one more read tells the end from a longer input.
fn read_all(input: &mut impl Read, buffer: &mut [u8]) -> Result<usize, ReadError>
    ensures inside { ReadsAtMost result buffer.new }
    ensures same { length buffer.new ≡ length buffer.old }
{
    let size = read_full(input, buffer)?;
    if size < buffer.len() || read_full(input, &mut [0])? == 0 {
        return Ok(size);
    }
    Err(ReadError::Over)
}

// All of a file.
pub fn read_named(rt: &impl Files, name: &[u8], buffer: &mut [u8]) -> Result<usize, ReadError>
    ensures inside { ReadsAtMost result buffer.new }
    ensures same { length buffer.new ≡ length buffer.old }
{
    let mut file = fs::open(rt, path_of(name)?)?;
    read_all(&mut file, buffer)
}

// All of a text: a file or, for `-`, the standard input.
pub fn read_given(
    rt: &impl Files,
    name: &[u8],
    input: &mut impl Read,
    buffer: &mut [u8],
) -> Result<usize, ReadError>
    ensures inside { ReadsAtMost result buffer.new }
    ensures same { length buffer.new ≡ length buffer.old }
{
    match name {
        b"-" => read_all(input, buffer),
        _ => read_named(rt, name, buffer),
    }
}

// How many names of a temporary file are tried.
const TRIES: u32 = 1_000_000;

// Writes to a name under /dev/, as /dev/stdout: there is nothing to rename.
fn write_device(rt: &impl Files, path: &str, bytes: &[u8]) -> io::Result<()> {
    let mut file = fs::create(rt, path)?;
    file.write_all(bytes)
}

// Makes a file that is not there yet, for its owner alone.
fn create_temporary<R: Files>(rt: &R, temporary: &str) -> io::Result<R::File> {
    OpenOptions::new()
        .write(true)
        .create_new(true)
        .mode(0o600)
        .open(rt, temporary)
}

// Writes all of the bytes to a new file, sees that they reach the device, lets everyone read it, and closes it.
fn fill<F: Write + OpenFile + Drop>(mut file: F, bytes: &[u8]) -> io::Result<()> {
    file.write_all(bytes)?;
    file.sync_all()?;
    let _ = file.set_permissions(Permissions::from_mode(0o644));
    Ok(())
}

// Writes a temporary file and gives it the name that it is to have, so that under that name there is never a part of
// it.
fn fill_and_rename<R: Files>(
    rt: &R,
    file: R::File,
    temporary: &str,
    path: &str,
    bytes: &[u8],
) -> io::Result<()> {
    fill(file, bytes)?;
    fs::rename(rt, temporary, path)
}

// The same; where it fails, the temporary file is removed, and the error handed on.
fn write_temporary<R: Files>(
    rt: &R,
    file: R::File,
    temporary: &str,
    path: &str,
    bytes: &[u8],
) -> io::Result<()> {
    let written = fill_and_rename(rt, file, temporary, path, bytes);
    if written.is_err() {
        let _ = fs::remove_file(rt, temporary);
    }
    written
}

// A temporary name, put at the front of a buffer: the file's with a dot and six digits.
fn put_temporary<'a>(buffer: &'a mut [u8], path: &str, n: u32) -> io::Result<&'a str> {
    let mut room = &mut buffer[..];
    write!(room, "{path}.{n:06}")?;
    path_of(buffer.get(..path.len() + 7).unwrap_or(&[]))
}

// Writes a file by way of the first temporary name that is free.
fn write_through(rt: &impl Files, path: &str, bytes: &[u8]) -> io::Result<()> {
    let mut buffer = [0; 4096];
    for n in 0..TRIES {
        let temporary = put_temporary(&mut buffer, path, n)?;
        match create_temporary(rt, temporary) {
            Ok(file) => return write_temporary(rt, file, temporary, path, bytes),
            Err(error) if error.kind() == ErrorKind::AlreadyExists => {}
            Err(error) => return Err(error),
        }
    }
    Err(io::Error::from(ErrorKind::AlreadyExists))
}

// Writes a file: whole, or not at all.
pub fn write_named(rt: &impl Files, name: &[u8], bytes: &[u8]) -> io::Result<()> {
    if name.starts_with(b"/dev/") {
        return write_device(rt, path_of(name)?, bytes);
    }
    if 4000 < name.len() {
        return Err(io::Error::from(ErrorKind::InvalidFilename));
    }
    if name.is_empty() {
        return Err(io::Error::from(ErrorKind::InvalidInput));
    }
    write_through(rt, path_of(name)?, bytes)
}
