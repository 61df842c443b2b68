// The rows of a phrase file that may be read.
ghost use Rattle.std.specs.Prelude.{◌≡◌, ◌<◌, length};
ghost use Rattle.placed_rows.specs.Rows.{Placed};

// The n rows of a phrase file, with the table of the place of each.
#[derive(Clone, Copy)]
pub struct Rows<'a> {
    pub file: &'a [u8],
    pub places: &'a [u32],
    pub n: usize,
    ghost placed: { Placed file.now places.now n },
}

impl<'a> Rows<'a> {
    ghost use Rattle.placed_rows.specs.Texts.{Small};
    ghost use Rattle.placed_rows.specs.Reading.{rows_of};

    // The number of bytes of row c.
    pub fn length_of(&self, c: usize) -> usize
        requires { c < self.now.n }
        ensures { Small (length (rows_of self.now c)) 256 result }
    {
        self.file[self.places[c] as usize + 2] as usize
    }

    // The bytes of row c.
    pub fn bytes_of(&self, c: usize) -> &'a [u8]
        requires { c < self.now.n }
        ensures { result.now ≡ rows_of self.now c }
    {
        let from = self.places[c] as usize + 3;
        let end = from + self.file[from - 1] as usize;
        &self.file[from..end]
    }
}
