// What a list of typing calls gives is a statement over the contracts of those calls: definitions in specs/, the
// theorem in proofs/.
#![tactic(auto)]

ghost use Rattle.std.specs.Prelude.{◌≡◌};

// The most bytes that can be typed.
pub fn most_bytes() -> usize
    ensures { result ≡ 4096 }
{
    4096
}
