// Bytes, codes and counts as people read them.
use std::fmt;

// A byte as it is or, where it is not printable, in the sheet's escapes: ASCII from the space to the tilde is printed
// as it is, but for a backslash.
#[derive(Clone, Copy)]
pub struct Escaped(pub u8);

impl fmt::Display for Escaped {
    fn fmt<W: fmt::Write>(&self, f: &mut fmt::Formatter<W>) -> fmt::Result {
        let byte = self.0;
        match byte {
            b'\\' => write!(f, "\\\\"),
            b'\t' => write!(f, "\\t"),
            b'\n' => write!(f, "\\n"),
            b' '..=b'~' => write!(f, "{}", char::from(byte)),
            _ => write!(f, "\\x{byte:02x}"),
        }
    }
}

// Bytes in quotes.
#[derive(Clone, Copy)]
pub struct Quoted<'a>(pub &'a [u8]);

impl fmt::Display for Quoted<'_> {
    fn fmt<W: fmt::Write>(&self, f: &mut fmt::Formatter<W>) -> fmt::Result {
        write!(f, "'")?;
        for byte in self.0 {
            write!(f, "{}", Escaped(*byte))?;
        }
        write!(f, "'")
    }
}

// Numbers with a space between them.
#[derive(Clone, Copy)]
pub struct Codes<'a>(pub &'a [u32]);

impl fmt::Display for Codes<'_> {
    fn fmt<W: fmt::Write>(&self, f: &mut fmt::Formatter<W>) -> fmt::Result {
        for (i, code) in self.0.iter().enumerate() {
            if i != 0 {
                write!(f, " ")?;
            }
            write!(f, "{code}")?;
        }
        Ok(())
    }
}

// A number of things: `1 code`, `2 codes`.
#[derive(Clone, Copy)]
pub struct Many(pub usize, pub &'static str);

impl fmt::Display for Many {
    fn fmt<W: fmt::Write>(&self, f: &mut fmt::Formatter<W>) -> fmt::Result {
        let Many(count, name) = *self;
        let end = if count == 1 { "" } else { "s" };
        write!(f, "{count} {name}{end}")
    }
}
