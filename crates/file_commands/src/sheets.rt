// `phrases sheet SHEET OUT`
use causes::Cause;
use dictionary::from_dictionary;
use std::io;
use std::rt::Files;
use text_forms::{Made, SheetError, make_file};
use tool_io::{
    Fields, Many, Quoted, ReadError, Reason, Refused, Stop, argument_error, file_error, read_named,
    write_named,
};
use words::front;

// What build answers of a file. Not inlined: its tables take stack only while it runs.
#[inline(never)]
fn built(file: &[u8]) -> Result<usize, Cause> {
    let mut places = [0u32; 4096];
    let mut lefts = [0u32; 4096];
    let mut rights = [0u32; 4096];
    let mut prefixes = [0u32; 4096];
    let mut area = [0u32; 16384];
    from_dictionary(
        file,
        1,
        &mut places,
        &mut lefts,
        &mut rights,
        &mut prefixes,
        &mut area,
    )
}

// What is said of a file that was written, with a warning where `check` would refuse it.
fn say_made(rt: &impl Print, name: &[u8], rows: usize, file: &[u8]) -> io::Result<()> {
    let size = file.len();
    let (name, many_rows, bytes) = (Quoted(name), Many(rows, "row"), Many(size, "byte"));
    println!(rt; "{name}: {many_rows}, {bytes}")?;
    match built(file) {
        Ok(_) => println!(rt; "result: written rows={rows} bytes={size} check=accepted"),
        Err(cause) => {
            let (refused, fields) = (Refused(cause), Fields(cause));
            let reason = Reason {
                cause,
                file,
                factor: 1,
            };
            println!(rt; "warning: phrases check would refuse it:\n{refused}{reason}")?;
            println!(rt; "result: written rows={rows} bytes={size} check={fields}")
        }
    }
}

// The bytes of a sheet: no more, because a local array of a million makes the prover run out of stack.
type Sheet = [u8; 262144];

// The bytes of a phrase file.
type File = [u8; 65536];

// Reads a sheet, and gives how many bytes stand at the front of the buffer; or says why it cannot.
fn read_sheet(rt: &(impl Files + Print), name: &[u8], sheet: &mut Sheet) -> Result<usize, Stop> {
    match read_named(rt, name, sheet) {
        Ok(size) => Ok(size),
        Err(ReadError::Over) => {
            Err(argument_error(rt, "SHEET", name, "it has more than 262144 bytes"))
        }
        Err(ReadError::Failed(error)) => Err(file_error(rt, "SHEET", name, &error)),
    }
}

// Reads a sheet into a buffer and makes its file; or says why it cannot.
fn make_rows(
    rt: &(impl Files + Print),
    name: &[u8],
    sheet: &mut Sheet,
    file: &mut File,
) -> Result<Made, Stop> {
    let size = read_sheet(rt, name, sheet)?;
    match make_file(front(sheet, size), file) {
        Ok(made) => Ok(made),
        Err(SheetError { line, error }) => {
            let reason = format_args!("line {line}: {error}");
            Err(argument_error(rt, "SHEET", name, reason))
        }
    }
}

// The same. The sheet's buffer is made here, where nothing else is done; not inlined, it takes stack only meanwhile.
#[inline(never)]
fn make(rt: &(impl Files + Print), name: &[u8], file: &mut File) -> Result<Made, Stop> {
    let mut sheet = [0u8; 262144];
    make_rows(rt, name, &mut sheet, file)
}

// The command.
pub fn make_phrase_file(rt: &(impl Files + Print), name: &[u8], out: &[u8]) -> Result<(), Stop> {
    if name == out {
        let reason = "it is the sheet itself; give another name";
        return Err(argument_error(rt, "OUT", out, reason));
    }
    let mut buffer = [0u8; 65536];
    let made = make(rt, name, &mut buffer)?;
    let file = front(&buffer, made.size);
    if let Err(error) = write_named(rt, out, file) {
        return Err(file_error(rt, "OUT", out, &error));
    }
    say_made(rt, out, made.rows, file)?;
    Ok(())
}
