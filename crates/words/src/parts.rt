// Parts of a text. A part that is not there is empty, so that no function here asks anything of its caller but `after`.
ghost use Rattle.std.specs.Prelude.{◌≡◌, true, ◌<◌, [], ◌∷◌, length, take, drop};
ghost use Rattle.words.specs.Parts.{part_of, count_before, after_first, Put};

// The part of s from a place up to another one, or nothing where there is no such part.
pub fn part(s: &[u8], from: usize, to: usize) -> &[u8]
    ensures { result.now ≡ part_of s.now from to }
{
    s.get(from..to).unwrap_or(&[])
}

// The first k entries, or all if there are fewer.
pub fn front<T>(s: &[T], k: usize) -> &[T]
    ensures { result.now ≡ take k s.now }
{
    s.get(..k).unwrap_or(s)
}

// What follows the first k bytes.
pub fn back(s: &[u8], k: usize) -> &[u8]
    ensures { result.now ≡ drop k s.now }
{
    s.get(k..).unwrap_or(&[])
}

// How many bytes stand before the first one of this value; all of them if there is none.
pub fn count_before(s: &[u8], byte: u8) -> usize
    ensures { result ≡ count_before byte s.now }
{
    s.iter().position(|x| *x == byte).unwrap_or(s.len())
}

// Those bytes, from a place on.
pub fn until(s: &[u8], from: usize, byte: u8) -> &[u8]
    ensures { result.now ≡ take (count_before byte (drop from s.now)) (drop from s.now) }
{
    let left = back(s, from);
    front(left, count_before(left, byte))
}

// The place after the first byte of this value from a place on; the length if there is none.
pub fn after(s: &[u8], from: usize, byte: u8) -> usize
    requires { from < length s.now }
    ensures { (from < result) × (result ≡ after_first byte s.now from) }
{
    let count = count_before(back(s, from), byte);
    if s.len() - from <= count {
        return s.len();
    }
    from + count + 1
}

// Whether a word is this one.
pub fn is(word: &[u8], name: &[u8]) -> bool
    ensures { (result ≡ true → word.now ≡ name.now)
        × (word.now ≡ name.now → result ≡ true) }
{
    word == name
}

// Writes a byte at a place, if there is room, and gives the next place.
pub fn put(out: &mut [u8], at: usize, byte: u8) -> usize
    ensures { Put out.old at (byte ∷ []) out.new result }
{
    if at < out.len() {
        out[at] = byte;
        return at + 1;
    }
    at
}

// Writes bytes from a place on, as far as there is room, and gives the place behind them.
pub fn put_all(out: &mut [u8], at: usize, bytes: &[u8]) -> usize
    ensures { Put out.old at bytes.now out.new result }
{
    let mut end = at;
    for byte in bytes {
        end = put(out, end, *byte);
    }
    end
}
