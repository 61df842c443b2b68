// Bursts: a burst has 40 codes.
ghost use Rattle.std.specs.Prelude.{◌≡◌};
ghost use Rattle.text_forms.specs.Bursts.{bursts_of, left_of};

// How many bursts so many codes take.
pub fn bursts(count: usize) -> usize
    ensures { result ≡ bursts_of count }
{
    count.div_ceil(40)
}

// How many codes the last of these bursts still has room for.
pub fn left(count: usize) -> usize
    ensures { result ≡ left_of count }
{
    (40 - count % 40) % 40
}
