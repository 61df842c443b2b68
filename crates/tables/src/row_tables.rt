// Dictionary tables whose rows may be read.
use placed_rows::Rows;

// The rows of a phrase file, their parts and prefixes, and the search area.
#[derive(Clone, Copy)]
pub struct RowTables<'a> {
    pub rows: Rows<'a>,
    pub lefts: &'a [u32],
    pub rights: &'a [u32],
    pub prefixes: &'a [u32],
    pub area: &'a [u32],
}
