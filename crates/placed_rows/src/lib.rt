// The rows of a phrase file, read through the table of places, and texts read from the front or from the back. NONE is
// handed on from `theory`, which stands below everything that speaks of rows, so that there is one definition of it.
#![tactic(auto)]

ghost use Rattle.std.specs.Prelude.{◌≡◌};
ghost use Rattle.placed_rows.specs.Texts.{begins, facing};

mod rows;

pub use rows::Rows;
pub use theory::NONE;

// A row and its number of bytes; where there is no row, NONE.
// Kept: no plainer: callers write row or NONE into tables as it is, and NextMatch (a definition) says none so.
#[derive(Clone, Copy)]
pub struct Match {
    pub row: u32,
    pub len: usize,
}

// Does p begin t, byte by byte?
#[inline(always)]
fn begins_by_bytes(p: &[u8], t: &[u8]) -> bool
    ensures { result ≡ begins p.now t.now }
{
    if t.len() < p.len() {
        return false;
    }
    let mut j = 0;
    while j < p.len() {
        if p[j] != t[j] {
            return false;
        }
        j += 1;
    }
    true
}

// Does p begin t? Few bytes are compared one by one: that takes less time than the library's test of many at once.
#[inline(always)]
pub fn begins_with(p: &[u8], t: &[u8]) -> bool
    ensures { result ≡ begins p.now t.now }
{
    if p.len() < 16 {
        return begins_by_bytes(p, t);
    }
    t.starts_with(p)
}

// Does p begin t, both read from the front or both from the back?
pub fn begins_facing(p: &[u8], t: &[u8], back: bool) -> bool
    ensures { result ≡ begins (facing back p.now) (facing back t.now) }
{
    if back {
        t.ends_with(p)
    } else {
        begins_with(p, t)
    }
}
