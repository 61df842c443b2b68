// Codes as bursts, in words.
use std::fmt;
use text_forms::{bursts, left};
use tool_io::Many;

// So many codes: `8 codes, 1 burst, 32 left in the last`.
#[derive(Clone, Copy)]
pub(crate) struct InBursts(pub usize);

impl fmt::Display for InBursts {
    fn fmt<W: fmt::Write>(&self, f: &mut fmt::Formatter<W>) -> fmt::Result {
        let count = self.0;
        let (codes, bursts) = (Many(count, "code"), Many(bursts(count), "burst"));
        write!(f, "{codes}, {bursts}, {} left in the last", left(count))
    }
}

// The same for a script: `codes=8 bursts=1 left=32`.
#[derive(Clone, Copy)]
pub(crate) struct BurstFields(pub usize);

impl fmt::Display for BurstFields {
    fn fmt<W: fmt::Write>(&self, f: &mut fmt::Formatter<W>) -> fmt::Result {
        let count = self.0;
        write!(
            f,
            "codes={count} bursts={} left={}",
            bursts(count),
            left(count)
        )
    }
}
