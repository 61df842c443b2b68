// A Bloom filter in the search area: two bits of one number for each key, and where both are clear the key is marked. A
// key that is not marked needs no look-up. Marks are clear bits because a run of NONE then has nothing marked: one fill
// empties buckets, names and marks.
#![tactic(auto)]

ghost use Rattle.std.specs.Prelude.{◌≡◌, ◌+◌, ◌/◌, ◌<◌, ◌≤◌, length};
ghost use Rattle.marks.specs.Layout.{area_size};
ghost use Rattle.marks.specs.Marks.{marked, bit_key, Marks};

// Where each part of the search area begins (`specs/Layout.antt`): the heads of the buckets at 0, then these.
pub const ROW_MARKS: usize = 4352;

pub const LINKS: usize = 8448;

pub const HINTS: usize = 12544;

pub const SEAMS: usize = 14848;

pub const PAIRS: usize = 15360;

pub const AREA: usize = 16384;

// Whether a key is marked.
pub fn is_marked(numbers: &[u32], base: usize, key: usize) -> bool
    requires { (base ≤ area_size) × (base + key / 1024 < length numbers.now) }
    ensures { result ≡ marked numbers.now base key }
{
    let word = numbers[base + key / 1024];
    (word >> (key / 32 % 32)) % 2 + (word >> (key % 32)) % 2 == 0
}

// Whether the key of one bit is marked: bit b of number i from the base on.
pub fn is_bit_marked(numbers: &[u32], base: usize, i: usize, b: usize) -> bool
    requires { (base + i < length numbers.now) × (b < 32) }
    ensures { result ≡ marked numbers.now base (bit_key i b) }
{
    (numbers[base + i] >> b) % 2 == 0
}

// Marks a key.
pub fn mark(numbers: &mut [u32], base: usize, key: usize)
    requires { (base ≤ area_size) × (base + key / 1024 < length numbers.old) }
    ensures { Marks numbers.old base key numbers.new }
{
    let at = base + key / 1024;
    numbers[at] = numbers[at] & !(1 << (key / 32 % 32)) & !(1 << (key % 32));
}
