// The bit set of the source's bitfield.rs: 4,097 bits, all set at first; bit p is bit p % 64 of word p / 64. Its
// methods copy no words, but for `clear`, which takes the bit set by value, as document 01 has it, and copies its 520
// bytes; the encoders call `clear_bit`, which changes the bit set where it stands.
#![tactic(auto)]

ghost use Rattle.std.specs.Prelude.{◌≡◌, suc, ◌-◌, ◌<◌};
ghost use Rattle.bitfield.specs.Bits.{word_bit, is_set, all_set, lowest, highest, successor, predecessor};
ghost use Rattle.bitfield.specs.Bits.{Cleared};

// The lowest set bit of a word from bit k on.
fn lowest_from(word: u64, k: usize) -> Option<usize>
    requires { k < 64 }
    ensures { result ≡ lowest (word_bit word) (64 - k) k }
{
    let rest = word >> k;
    if rest == 0 {
        return None;
    }
    let zeros = rest.trailing_zeros() as usize;
    Some(k + zeros)
}

// The highest set bit of a word from bit k down.
fn highest_to(word: u64, k: usize) -> Option<usize>
    requires { k < 64 }
    ensures { result ≡ highest (word_bit word) (suc k) }
{
    let above = 63 - k;
    let rest = (word << above) >> above;
    if rest == 0 {
        return None;
    }
    let zeros = rest.leading_zeros() as usize;
    Some(63 - zeros)
}

#[derive(Clone, Copy)]
pub struct BitField {
    pub words: [u64; 65],
}

impl BitField {
    // All bits set.
    pub fn new() -> Self
        ensures { is_set result.words ≡ all_set }
    {
        Self {
            words: [u64::MAX; 65],
        }
    }

    // Whether a bit is set.
    pub fn is_set(&self, bit: usize) -> bool
        ensures { result ≡ is_set self.now.words bit }
    {
        bit < 4097 && (self.words[bit / 64] >> (bit % 64)) % 2 == 1
    }

    // Clears a bit; one beyond the 4,097 leaves every word as it was.
    pub fn clear_bit(&mut self, bit: usize)
        ensures { Cleared self.old.words bit self.new.words }
    {
        if bit < 4097 {
            self.words[bit / 64] &= !(1 << (bit % 64));
        }
    }

    // The bit set without a bit; the one that it is called on stays as it was.
    pub fn clear(mut self, bit: usize) -> Self
        ensures { Cleared self.words bit result.words }
    {
        self.clear_bit(bit);
        self
    }

    // The next set bit: the lowest from `bit` on.
    pub fn successor(&self, bit: usize) -> Option<usize>
        ensures { result ≡ successor (is_set self.now.words) bit }
    {
        let mut from = bit % 64;
        for word_idx in bit / 64..65 {
            if let Some(k) = lowest_from(self.words[word_idx], from) {
                let at = word_idx * 64 + k;
                return if at < 4097 { Some(at) } else { None };
            }
            from = 0;
        }
        None
    }

    // The last set bit: the highest from `bit` down.
    pub fn predecessor(&self, bit: usize) -> Option<usize>
        ensures { result ≡ predecessor (is_set self.now.words) bit }
    {
        let first = bit.min(4096);
        let mut from = first % 64;
        for word_idx in (0..first / 64 + 1).rev() {
            if let Some(k) = highest_to(self.words[word_idx], from) {
                return Some(word_idx * 64 + k);
            }
            from = 63;
        }
        None
    }
}
