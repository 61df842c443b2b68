// The lowest row with the bytes of an earlier row, and the lowest with the hash of one, found by a table of hashes in a
// scratch buffer. Document 02 calls two rows of different bytes with one hash a clash, hence the name. Where no two
// rows are equal, the lowest row with the hash of an earlier one is the lowest that clashes.
#![tactic(auto)]

ghost use Rattle.std.specs.Prelude.{◌≡◌, Bool, true, false, not, ◌||◌, ◌%◌, ◌<◌, ◌≤◌, length};
ghost use Rattle.theory.specs.Lists.{equal};
ghost use Rattle.placed_rows.specs.Reading.{rows_of};
ghost use Rattle.placed_rows.specs.Texts.{Small};
ghost use Rattle.clashes.specs.Clashes.{is_equal, shares_hash, FirstFound};
ghost use Rattle.clashes.specs.Buckets.{emptied, head, listed, pushed, is_sought, sought};

use fnv::hash_bytes;
use placed_rows::{NONE, Rows};

// How many buckets there are: the scratch begins with the head of each.
const BUCKETS: usize = 4096;

// Where the link of each row stands behind them, and then the hash of each row.
const LINKS: usize = 4096;

const HASHES: usize = 8192;

// The bucket of a hash.
fn bucket(hash: u32) -> usize
    ensures { Small (hash % 4096) 4096 result }
{
    hash as usize % BUCKETS
}

// Empties all buckets.
// Kept: no plainer: a struct that holds the lent scratch, with its size, needs clauses on the borrow in each method.
fn empty(scratch: &mut [u32])
    requires { 16384 ≤ length scratch.old }
    ensures { scratch.new ≡ emptied scratch.old 4096 }
{
    scratch[..BUCKETS].fill(NONE);
}

// What is looked for of the rows that were stored with a hash.
trait Sought {
    // Whether their bytes have to be equal too.
    ghost exact: { Bool };

    // Do the bytes of such a row agree with those of the row with this hash?
    fn agrees(stored: &[u8], bytes: &[u8]) -> bool
        ensures { result ≡ (not exact || equal stored.now bytes.now) };
}

// A row with the hash, whatever its bytes.
struct SharedHash;

impl Sought for SharedHash {
    ghost exact = { false };

    fn agrees(_stored: &[u8], _bytes: &[u8]) -> bool {
        true
    }
}

// A row with the bytes.
struct EqualBytes;

impl Sought for EqualBytes {
    ghost exact = { true };

    fn agrees(stored: &[u8], bytes: &[u8]) -> bool {
        stored == bytes
    }
}

// Was row c stored with this hash, and do its bytes agree with these?
fn is_sought<S: Sought>(rows: &Rows<'_>, scratch: &[u32], hash: u32, bytes: &[u8], c: usize) -> bool
    requires in_bounds { 16384 ≤ length scratch.now }
    requires c_lt_n { c < rows.now.n }
    ensures { result ≡ is_sought scratch.now (rows_of rows.now) hash
        bytes.now S.exact c }
{
    scratch[HASHES + c] == hash && S::agrees(rows.bytes_of(c), bytes)
}

// Is one of the first `count` rows the one that is looked for? A link goes to a lower row, so the walk ends.
fn has<S: Sought>(rows: &Rows<'_>, scratch: &[u32], hash: u32, bytes: &[u8], count: usize) -> bool
    requires in_bounds { 16384 ≤ length scratch.now }
    requires count_le_n { count ≤ rows.now.n }
    ensures { result ≡ listed scratch.now
        (is_sought scratch.now (rows_of rows.now) hash bytes.now
        S.exact) count (head scratch.now hash) }
{
    let mut below = count;
    let mut at = scratch[bucket(hash)] as usize;
    while at < below {
        if is_sought::<S>(rows, scratch, hash, bytes, at) {
            return true;
        }
        below = at;
        at = scratch[LINKS + at] as usize;
    }
    false
}

// Puts the row at the front of the bucket of its hash.
fn push(scratch: &mut [u32], row: usize, hash: u32)
    requires in_bounds { 16384 ≤ length scratch.old }
    requires row_bound { row < 4096 }
    ensures { scratch.new ≡ pushed scratch.old row hash }
{
    let at = bucket(hash);
    let next = scratch[at];
    scratch[HASHES + row] = hash;
    scratch[LINKS + row] = next;
    scratch[at] = row as u32;
}

// The lowest row that has of an earlier row what is looked for.
fn first_sought<S: Sought>(rows: &Rows<'_>, factor: u64, scratch: &mut [u32]) -> Option<usize>
    requires { 16384 ≤ length scratch.old }
    ensures { FirstFound (sought (rows_of rows.now) factor S.exact) rows.now.n
        scratch.old scratch.new result }
{
    empty(scratch);
    for row in 0..rows.n {
        let bytes = rows.bytes_of(row);
        let hash = hash_bytes(bytes, factor);
        if has::<S>(rows, scratch, hash, bytes, row) {
            return Some(row);
        }
        push(scratch, row, hash);
    }
    None
}

// The lowest row with the hash of an earlier row, whatever their bytes.
pub fn first_shared(rows: &Rows<'_>, factor: u64, scratch: &mut [u32]) -> Option<usize>
    requires { 16384 ≤ length scratch.old }
    ensures { FirstFound (shares_hash (rows_of rows.now) factor) rows.now.n
        scratch.old scratch.new result }
{
    first_sought::<SharedHash>(rows, factor, scratch)
}

// The lowest row with the bytes of an earlier row. The hashes only spare comparisons: factor 1
// serves, whatever factor a build has, and under it rows of different bytes seldom have one hash.
pub fn first_equal(rows: &Rows<'_>, scratch: &mut [u32]) -> Option<usize>
    requires { 16384 ≤ length scratch.old }
    ensures { FirstFound (is_equal (rows_of rows.now)) rows.now.n scratch.old
        scratch.new result }
{
    first_sought::<EqualBytes>(rows, 1, scratch)
}
