// Dictionary tables as a caller lends them.

// A phrase file, its four tables and the search area. Nothing is known of them before `in_form` has looked at them.
#[derive(Clone, Copy)]
pub struct Tables<'a> {
    pub file: &'a [u8],
    pub places: &'a [u32],
    pub lefts: &'a [u32],
    pub rights: &'a [u32],
    pub prefixes: &'a [u32],
    pub area: &'a [u32],
}
