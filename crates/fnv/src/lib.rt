// FNV-1a at 64 bits, and the hash of a row.
#![tactic(auto)]

ghost use Rattle.std.specs.Prelude.{◌≡◌};
ghost use Rattle.fnv.specs.Fnv.{fnv_step, fnv, row_hash, RowValue};

// FNV's offset basis: the value that the hash starts from.
pub const OFFSET: u64 = 0xcbf2_9ce4_8422_2325;

const PRIME: u64 = 0x100_0000_01b3;

// One octet: exclusive or, then times the prime modulo 2^64.
#[tactic(auto, unfolding(crate::specs::Fnv::fnv_step))]
fn step(hash: u64, octet: u8) -> u64
    ensures { result ≡ fnv_step hash octet }
{
    (hash ^ u64::from(octet)).wrapping_mul(PRIME)
}

// FNV-1a over the bytes, going on from the value `start`.
pub fn fnv1a(start: u64, bytes: &[u8]) -> u64
    ensures { result ≡ fnv start bytes.now }
{
    let mut hash = start;
    for octet in bytes {
        hash = step(hash, *octet);
    }
    hash
}

// The value of a row before the factor: FNV-1a over the eight octets of the length, low first, then the bytes.
pub fn row_value(bytes: &[u8]) -> u64
    ensures { RowValue bytes.now result }
{
    let length = (bytes.len() as u64).to_le_bytes();
    let hash = fnv1a(OFFSET, &length);
    fnv1a(hash, bytes)
}

// The hash of a row's bytes: the value, times the factor; the upper 32 bits.
#[tactic(auto, unfolding(crate::specs::Fnv::row_hash))]
pub fn hash_bytes(bytes: &[u8], factor: u64) -> u32
    ensures { result ≡ row_hash bytes.now factor }
{
    let value = row_value(bytes);
    (value.wrapping_mul(factor) >> 32) as u32
}
