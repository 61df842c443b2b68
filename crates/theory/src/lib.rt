// Definitions and theorems only: specs/ has the definitions, proofs/ the theorems. A crate needs a source, and this is
// it. The two are apart so that a reader who trusts the prover opens specs/ and proofs/Demands.antt, and nothing else.
// "No join across the seam may exist" is read as in the Rust, by the parts of rows; proofs/Demands.antt shows that on
// accepted rows it is the same check by their bytes. The merge procedure and the pair check have edits of their own in
// the gate, since every contract cites them and no call's edit can show that they are right.
#![tactic(auto)]

ghost use Rattle.std.specs.Prelude.{◌≡◌};
ghost use Rattle.theory.specs.Dictionary as Dictionary;

// "None" of document 01.
pub const NONE: u32 = 4294967295;

// The same.
pub fn none() -> u32
    ensures { result ≡ Dictionary.none }
{
    NONE
}
