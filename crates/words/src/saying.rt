// What the programs print, to standard output. A write that fails is handed on to the caller, up to `main`.
ghost use Rattle.std.specs.Prelude.{◌≡◌};

use std::io;

// Bytes as they are.
pub fn say(rt: &impl Print, text: &[u8]) -> io::Result<()> {
    rt.write_all(text)
}

// A number of 32 bits as one of 64.
pub fn wide(x: u32) -> u64
    ensures { result ≡ x }
{
    u64::from(x)
}

// A number in decimal.
pub fn say_number(rt: &impl Print, n: u64) -> io::Result<()> {
    rt.print(n)
}

// A space and a number.
pub fn say_field(rt: &impl Print, n: u64) -> io::Result<()> {
    print!(rt; " {n}")
}
