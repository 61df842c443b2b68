// The front of the search area: the rows of a phrase file as a forest under "next shorter prefix". The bucket is a
// multiple of the prefix's number plus the next byte, so that the byte in a word tells the prefix. Rows go in by rising
// length, so that a row one byte longer than its prefix, first in its bucket, takes one load and one comparison.
// Kept: slower, rows, area, text and place stand apart: a struct made for a call waits for its stores (docs/TRIALS.md).
#![tactic(auto)]

ghost use Rattle.std.specs.Prelude.{◌≡◌, true, ◌+◌, ◌-◌, ◌%◌, ◌<◌, ◌≤◌, ◌⊎◌, length, get_or, drop};
ghost use Rattle.marks.specs.Layout.{row_marks, hints};
ghost use Rattle.theory.specs.Dictionary.{none};
ghost use Rattle.placed_rows.specs.Reading.{rows_of};
ghost use Rattle.placed_rows.specs.Texts.{Small};
ghost use Rattle.marks.specs.Marks.{marked};
ghost use Rattle.forest.specs.Words.{word, tag_at, row_of, more_of, bucket_of, child_key, marks_from};
ghost use Rattle.forest.specs.Lookups.{Fits, OneLonger, ChildIs, ByteRow, Descent};
ghost use Rattle.forest.specs.Growth.{cleared, place_of, pushed, Inserted};

use marks::{LINKS, ROW_MARKS};
use placed_rows::{Match, NONE, Rows};

fn no_match() -> Match
    ensures { result.row ≡ 4294967295 }
{
    Match { row: NONE, len: 0 }
}

// The row that a word packs.
fn row_of(w: u32) -> usize
    ensures { Small (row_of w) 8192 result }
{
    (w % 8192) as usize
}

// By how many bytes the row that a word packs is longer than its prefix.
fn more_of(w: u32) -> usize
    ensures { Small (more_of w) 65 result }
{
    (w / 67108864) as usize + 1
}

// The word of row c, with the tag t, which has `more` bytes beyond its prefix.
// Kept: word (a definition) needs it: three numbers in one, since the search area has one number for a row.
fn word_of(c: usize, t: u32, more: usize) -> u32
    requires row { c < 4096 }
    requires more_bytes { (0 < more) × (more ≤ 64) }
    ensures { result ≡ word c t more }
{
    c as u32 + 8192 * (t % 8192) + 67108864 * ((more - 1) as u32)
}

// The tag of a row whose prefix has k bytes: the byte beyond them, and five bits of the next one.
fn tag_of(bytes: &[u8], k: usize) -> u32
    requires { k < length bytes.now }
    ensures { result ≡ tag_at bytes.now k }
{
    let next = bytes[k] as u32;
    if bytes.len() - k == 1 {
        return next;
    }
    next + 256 * (bytes[k + 1] as u32 % 32)
}

// The bucket of the rows whose prefix is row p and whose next byte is b.
fn bucket(p: u32, b: u8) -> usize
    requires { p < 4096 }
    ensures { Small (bucket_of p b) row_marks result }
{
    (p as usize * 31 + b as usize) % 4096
}

// The bucket of the rows that have no prefix and begin with b.
fn root_bucket(b: u8) -> usize
    ensures { Small (bucket_of none b) row_marks result }
{
    4096 + b as usize
}

// The key under which the prefix p and the next byte b are marked.
fn child_key(p: u32, b: u8) -> usize
    ensures { Small (child_key p b) 4194304 result }
{
    p as usize % 4096 * 1024 + b as usize % 32 * 33
}

// Whether the prefix p and the next byte b are marked, by one bit: else no row has them.
fn may_have_child(area: &[u32], p: u32, b: u8) -> bool
    requires { hints ≤ length area.now }
    ensures { result ≡ marked area.now marks_from (child_key p b) }
{
    marks::is_bit_marked(area, ROW_MARKS, p as usize % 4096, b as usize % 32)
}

// Is w the word of a row whose prefix is p, of len bytes, and that goes on as the text from at on does? The bucket is
// that of p and the byte there, so that a word with this byte has p as its prefix.
#[inline(always)]
fn fits(rows: &Rows<'_>, w: u32, p: u32, len: usize, text: &[u8], at: usize) -> bool
    requires row { w % 8192 < rows.now.n }
    requires inside { at < length text.now }
    ensures { Fits (rows_of rows.now) rows.now.n p len (drop at text.now) w
        result }
{
    if w / 8192 % 256 != text[at] as u32 {
        return false;
    }
    let more = more_of(w);
    if text.len() - at < more {
        return false;
    }
    if more == 1 {
        return true;
    }
    if w / 2097152 % 32 != text[at + 1] as u32 % 32 {
        return false;
    }
    let bytes = rows.bytes_of(row_of(w));
    if bytes.len() < len {
        return false;
    }
    if bytes.len() - len != more {
        return false;
    }
    placed_rows::begins_with(&bytes[len..], &text[at..])
}

// Is w the word of a row that is one byte longer than its prefix, and is this byte b?
fn is_one_longer(w: u32, b: u8) -> bool
    ensures { result ≡ true → OneLonger w b }
{
    w / 8192 == b as u32
}

// The child of p, of len bytes, that goes on as the text from at on does, among the rows of its bucket, whose first
// word is given, or NONE.
#[inline(always)]
fn listed_child(
    rows: &Rows<'_>,
    area: &[u32],
    first: u32,
    p: u32,
    len: usize,
    text: &[u8],
    at: usize,
) -> Match
    requires room { hints ≤ length area.now }
    requires inside { at < length text.now }
    requires first_word { first ≡ get_or area.now (bucket_of p (get_or text.now at 0)) 0 }
    requires byte { get_or text.now at 0 < 256 }
    requires sum_fits { len + (length text.now - at) < 18446744073709551616 }
    ensures { ChildIs (rows_of rows.now) rows.now.n area.now p len
        (drop at text.now) result.row result.len }
{
    let mut w = first;
    for _step in 0..rows.n {
        let i = row_of(w);
        if rows.n <= i {
            return no_match();
        }
        if fits(rows, w, p, len, text, at) {
            return Match {
                row: w % 8192,
                len: len + more_of(w),
            };
        }
        w = area[LINKS + i];
    }
    no_match()
}

// The same child. A row that is one byte longer, and first in its bucket, is told by its word alone.
#[inline(always)]
fn bucket_child(
    rows: &Rows<'_>,
    area: &[u32],
    first: u32,
    p: u32,
    len: usize,
    text: &[u8],
    at: usize,
) -> Match
    requires room { hints ≤ length area.now }
    requires inside { at < length text.now }
    requires first_word { first ≡ get_or area.now (bucket_of p (get_or text.now at 0)) 0 }
    requires sum_fits { len + (length text.now - at) < 18446744073709551616 }
    ensures { ChildIs (rows_of rows.now) rows.now.n area.now p len
        (drop at text.now) result.row result.len }
{
    let next = text[at];
    if rows.n <= row_of(first) {
        return no_match();
    }
    if is_one_longer(first, next) {
        return Match {
            row: first % 8192,
            len: len + 1,
        };
    }
    listed_child(rows, area, first, p, len, text, at)
}

// The row that is the byte b alone, where there is one, or NONE: it is first in its bucket.
// Kept: no plainer: the row or NONE goes into a Match as it is, and ByteRow (a definition) says none so.
pub fn byte_row(rows: &Rows<'_>, area: &[u32], b: u8) -> u32
    requires { hints ≤ length area.now }
    ensures { ByteRow (rows_of rows.now) rows.now.n area.now b result }
{
    let w = area[root_bucket(b)];
    if rows.n <= row_of(w) {
        return NONE;
    }
    w % 8192
}

// The child of row p, of len bytes, that goes on as the text from at on does, or NONE.
pub fn child(rows: &Rows<'_>, area: &[u32], p: u32, len: usize, text: &[u8], at: usize) -> Match
    requires row { p < rows.now.n }
    requires room { hints ≤ length area.now }
    requires inside { at ≤ length text.now }
    requires sum_fits { len + (length text.now - at) < 18446744073709551616 }
    ensures { ChildIs (rows_of rows.now) rows.now.n area.now p len
        (drop at text.now) result.row result.len }
{
    if text.len() <= at {
        return no_match();
    }
    let next = text[at];
    if !may_have_child(area, p, next) {
        return no_match();
    }
    bucket_child(rows, area, area[bucket(p, next)], p, len, text, at)
}

// The longest row that begins the bytes of row from, len of them, followed by the text from at on, with its length.
pub fn descend(
    rows: &Rows<'_>,
    area: &[u32],
    from: u32,
    len: usize,
    text: &[u8],
    at: usize,
) -> Match
    requires row { from < rows.now.n }
    requires room { hints ≤ length area.now }
    requires inside { at ≤ length text.now }
    requires sum_fits { len + (length text.now - at) < 18446744073709551616 }
    ensures { Descent (rows_of rows.now) rows.now.n area.now from len
        (drop at text.now) result.row result.len }
{
    let mut best = from;
    let mut end = at;
    while end < text.len() {
        let next = text[end];
        let size = len + (end - at);
        if !may_have_child(area, best, next) {
            return Match {
                row: best,
                len: size,
            };
        }
        let w = area[bucket(best, next)];
        if rows.n <= row_of(w) {
            return Match {
                row: best,
                len: size,
            };
        }
        if is_one_longer(w, next) {
            best = w % 8192;
            end += 1;
            continue;
        }
        let m = child(rows, area, best, size, text, end);
        let r = m.row;
        if r == NONE {
            return Match {
                row: best,
                len: size,
            };
        }
        end += m.len - size;
        best = r;
    }
    Match {
        row: best,
        len: len + (end - at),
    }
}

// The shortest row that begins the text from at on, with its length, or NONE.
fn root_child(rows: &Rows<'_>, area: &[u32], text: &[u8], at: usize) -> Match
    requires room { hints ≤ length area.now }
    requires inside { at ≤ length text.now }
    ensures { ChildIs (rows_of rows.now) rows.now.n area.now none 0
        (drop at text.now) result.row result.len }
{
    if text.len() <= at {
        return no_match();
    }
    bucket_child(rows, area, area[root_bucket(text[at])], NONE, 0, text, at)
}

// The longest row that begins the text from at on, with its length, or NONE and 0.
pub fn longest(rows: &Rows<'_>, area: &[u32], text: &[u8], at: usize) -> Match
    requires room { hints ≤ length area.now }
    requires inside { at ≤ length text.now }
    ensures { Descent (rows_of rows.now) rows.now.n area.now none 0
        (drop at text.now) result.row result.len }
{
    let m = root_child(rows, area, text, at);
    let r = m.row;
    if r == NONE {
        return Match { row: NONE, len: 0 };
    }
    let l = m.len;
    descend(rows, area, r, l, text, at + l)
}

// Where a word comes into bucket h: at its head where the bucket is empty, else at the link of its first word.
fn place(area: &[u32], n: usize, h: usize) -> usize
    requires few { n ≤ 4096 }
    requires bucket { h < row_marks }
    requires room { hints ≤ length area.now }
    ensures { Small (place_of area.now n h) hints result }
{
    let first = row_of(area[h]);
    if n <= first {
        return h;
    }
    LINKS + first
}

// The word w of row c goes into bucket h: to its front where the bucket is empty, else behind its first word.
fn push(area: &mut [u32], n: usize, h: usize, c: usize, w: u32)
    requires few { n ≤ 4096 }
    requires row { c < 4096 }
    requires bucket { h < row_marks }
    requires room { hints ≤ length area.old }
    ensures { area.new ≡ pushed area.old n h c w }
{
    let at = place(area, n, h);
    area[LINKS + c] = area[at];
    area[at] = w;
}

// The bucket of the rows whose prefix is p, a row or NONE, and whose next byte is b.
fn bucket_of(p: u32, b: u8) -> usize
    requires { (p ≡ none) ⊎ (p < 4096) }
    ensures { Small (bucket_of p b) row_marks result }
{
    if p == NONE {
        return root_bucket(b);
    }
    bucket(p, b)
}

// Row c goes into the area, under the longest row in it that begins row c.
pub fn insert(rows: &Rows<'_>, area: &mut [u32], c: usize)
    requires room { hints ≤ length area.old }
    requires row { c < rows.now.n }
    requires short { length (rows_of rows.now c) ≤ 64 }
    ensures { Inserted (rows_of rows.now) rows.now.n area.old c
        area.new }
{
    let bytes = rows.bytes_of(c);
    let m = longest(rows, area, bytes, 0);
    let p = m.row;
    let k = m.len;
    if k < bytes.len() {
        let next = bytes[k];
        let h = bucket_of(p, next);
        marks::mark(area, ROW_MARKS, child_key(p, next));
        push(
            area,
            rows.n,
            h,
            c,
            word_of(c, tag_of(bytes, k), bytes.len() - k),
        );
    }
}

// Every bucket and every mark is emptied.
pub fn clear(area: &mut [u32])
    requires { hints ≤ length area.old }
    ensures { area.new ≡ cleared area.old }
{
    area[..LINKS].fill(NONE);
}
