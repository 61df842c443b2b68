// Decimal numbers.
ghost use Rattle.std.specs.Prelude.{◌≡◌};
ghost use Rattle.words.specs.Numbers.{with_digit, number_of};

// One digit more: nothing for another byte, and for a number of more than 64 bits.
fn add_digit(value: u64, byte: u8) -> Option<u64>
    ensures { result ≡ with_digit value byte }
{
    let b'0'..=b'9' = byte else {
        return None;
    };
    value.checked_mul(10)?.checked_add(u64::from(byte - b'0'))
}

// The number that a word writes: nothing without a digit, with another byte among them, and above 64 bits.
pub fn number(word: &[u8]) -> Option<u64>
    ensures { result ≡ number_of word.now }
{
    if word.is_empty() {
        return None;
    }
    let mut value = 0;
    for byte in word {
        value = add_digit(value, *byte)?;
    }
    Some(value)
}
