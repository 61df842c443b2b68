// What an accepting build leaves is a definition, `Built`, in specs/; proofs/ says what it gives to the functions over
// the tables. The layers above cite `Built` and its laws only, so that the arrangement of the search area can change
// below them. `dictionary_of` is a function of the file alone, which is what makes `num_tokens`, `token_len` and
// decoding right over any tables in form. The definitions of the interval tables stand here too, so that the interval
// count does not wait for preparation.
#![tactic(auto)]

ghost use Rattle.std.specs.Prelude.{◌≡◌};
ghost use Rattle.marks.specs.Layout.{area_size};

// The size of the search area.
pub fn area_size() -> usize
    ensures { result ≡ area_size }
{
    marks::AREA
}
