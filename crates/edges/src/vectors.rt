// Hashes of rows, and every cut of a published text and of the octets of two rows. Each line has a name, the value in
// hex, and `ok` where that is the value written here.
ghost use Rattle.std.specs.Prelude.{◌≡◌, ◌≤◌, length};
ghost use Rattle.fnv.specs.Fnv.{fnv_offset, fnv};

use fnv::{OFFSET, fnv1a, hash_bytes, row_value};
use std::io;

const FACTOR: u64 = 0x9e37_79b9_7f4a_7c15;

// `ok` where a value is the expected one.
fn verdict(value: u64, expected: u64) -> &'static str {
    if value == expected { "ok" } else { "WRONG" }
}

fn row(rt: &impl Print, text: &str, with_one: u32, with_factor: u32) -> io::Result<()> {
    let value = hash_bytes(text.as_bytes(), 1);
    let is_right = verdict(u64::from(value), u64::from(with_one));
    println!(rt; "row \"{text}\": {value:08x} {is_right}")?;
    let value = hash_bytes(text.as_bytes(), FACTOR);
    let is_right = verdict(u64::from(value), u64::from(with_factor));
    println!(rt; "times {FACTOR:x}: {value:08x} {is_right}")
}

// The values were computed apart from this code, in Python, from document 01's "Hash of a row":
//     h = 0xcbf29ce484222325
//     for b in len(row).to_bytes(8, "little") + row: h = (h ^ b) * 0x100000001b3 % 2**64
//     h * factor % 2**64 >> 32
fn rows(rt: &impl Print) -> io::Result<()> {
    row(rt, "", 0xa8c7_f832, 0xb499_1e24)?;
    row(rt, "a", 0x529a_4ddc, 0x81dc_ba3e)?;
    row(rt, "aa", 0x9c60_04d3, 0x72d5_f89e)?;
    row(rt, "ab", 0x9c60_01d3, 0x0a96_3704)?;
    row(rt, "bc", 0x9c5d_1ad3, 0xaad7_8e4d)?;
    row(rt, "cd", 0x9c58_f3d3, 0xdb32_e577)?;
    row(rt, "abcd", 0xb084_4143, 0x623d_882b)?;
    row(
        rt,
        "0123456789abcdef0123456789abcdef0123456789abcdef0123456789abcdef",
        0x4188_3489,
        0x1dd5_fd30,
    )
}

// The value of the octets in two parts: of the first k of them, then going on from there over the rest.
fn in_two_parts(octets: &[u8], k: usize) -> u64
    requires { k ≤ length octets.now }
    ensures { result ≡ fnv fnv_offset octets.now }
{
    let (head, tail) = octets.split_at(k);
    let first = fnv1a(OFFSET, head);
    fnv1a(first, tail)
}

// Every cut of the octets.
fn cuts(rt: &impl Print, name: &str, octets: &[u8], expected: u64) -> io::Result<()> {
    for k in 0..=octets.len() {
        let value = in_two_parts(octets, k);
        let is_right = verdict(value, expected);
        println!(rt; "{name} cut at {k}: {value:016x} {is_right}")?;
    }
    Ok(())
}

// A row's value before the factor, and every cut of the octets that it is of.
fn row_cuts(
    rt: &impl Print,
    name: &str,
    bytes: &[u8],
    octets: &[u8],
    expected: u64,
) -> io::Result<()> {
    let value = row_value(bytes);
    let is_right = verdict(value, expected);
    println!(rt; "{name} before the factor: {value:016x} {is_right}")?;
    cuts(rt, name, octets, expected)
}

// The value of "foobar" is published. Those of the rows were computed as those of `rows`, before the last line; the
// octets are written out, the length low first.
pub(crate) fn work_through(rt: &impl Print) -> io::Result<()> {
    rows(rt)?;
    cuts(rt, "\"foobar\"", b"foobar", 0x8594_4171_f739_67e8)?;
    row_cuts(
        rt,
        "row \"ab\"",
        b"ab",
        b"\x02\0\0\0\0\0\0\0ab",
        0x9c60_01d3_28a9_4690,
    )?;
    row_cuts(
        rt,
        "row of 64 bytes",
        b"0123456789abcdef0123456789abcdef0123456789abcdef0123456789abcdef",
        b"\x40\0\0\0\0\0\0\00123456789abcdef0123456789abcdef0123456789abcdef0123456789abcdef",
        0x4188_3489_e5e6_6325,
    )
}
