// The count of an interval of a prepared text: the second part of the source's interval_encoding.rs. Interval tables
// that are too short are out of form here (8), since they are only read; in preparation, which is to fill them, they
// are too short (7).
#![tactic(auto)]

ghost use Rattle.std.specs.Prelude.{◌≡◌, ◌-◌, length, get_or};
ghost use Rattle.built_tables.specs.IntervalTables.{codes_in_form, tree_in_form, interval_in_form};
ghost use Rattle.interval_count.specs.Steps.{MeetsReady, MeetsIs, BetweenReady, PieceReady, PieceCounts};
ghost use Rattle.interval_count.specs.Answers.{CoreReady, CoreCounts, Counts};
ghost use Rattle.tables.specs.Tables.{given, lent};

use backtrack_encoder::{BacktrackEncoder, step};
use bitfield::BitField;
use causes::Cause;
use placed_rows::NONE;
use tables::{RowTables, Tables};

// A text, and last code, tree number, tree end and depth of each of its prefixes, as preparation left them. Nothing is
// known of them before `in_form` has looked at them.
#[derive(Clone, Copy)]
pub struct IntervalTables<'a> {
    pub text: &'a [u8],
    pub last_codes: &'a [u32],
    pub numbers: &'a [u32],
    pub ends: &'a [u32],
    pub depths: &'a [u32],
}

// Whether a tree table has one entry more, none above the text's length + 1. The highest one is looked for to the end of
// the table: without an exit on the way several entries are compared at once.
fn tree_in_form(text: &[u8], table: &[u32]) -> bool
    ensures { result ≡ tree_in_form text.now table.now }
{
    if table.len() <= text.len() {
        return false;
    }
    let most = text.len() + 1;
    let mut highest = 0;
    for i in 0..most {
        let entry = table[i];
        if highest < entry {
            highest = entry;
        }
    }
    if most < highest as usize {
        return false;
    }
    true
}

impl<'a> IntervalTables<'a> {
    // Whether the table of last codes has one entry per byte, each below n.
    fn codes_in_form(&self, n: usize) -> bool
        ensures { result ≡ codes_in_form n self.now.text.now self.now.last_codes.now }
    {
        if self.last_codes.len() < self.text.len() {
            return false;
        }
        for i in 0..self.text.len() {
            if n <= self.last_codes[i] as usize {
                return false;
            }
        }
        true
    }

    // Whether the interval tables are in form.
    fn in_form(&self, n: usize) -> bool
        ensures { let I = self.now in result ≡ interval_in_form n I.text.now I.last_codes.now I.numbers.now
            I.ends.now I.depths.now }
    {
        if !self.codes_in_form(n) {
            return false;
        }
        if !tree_in_form(self.text, self.numbers) {
            return false;
        }
        if !tree_in_form(self.text, self.ends) {
            return false;
        }
        tree_in_form(self.text, self.depths)
    }

    // Whether the prepared tables take over at the encoder's place: its last code is that of the prefix up to there,
    // and the prefix up to the interval's end is that prefix or below it.
    fn meets(&self, encoder: BacktrackEncoder, work: &[u32], from: usize, to: usize) -> bool
        requires { let I = self.now in MeetsReady encoder work.now I.last_codes.now I.numbers.now I.ends.now from to }
        ensures { let I = self.now in MeetsIs encoder work.now I.last_codes.now I.numbers.now I.ends.now from to
            result }
    {
        if encoder.count == 0 {
            return false;
        }
        let last = encoder.count - 1;
        let place = from + encoder.pos;
        if self.last_codes[place - 1] != work[last] {
            return false;
        }
        if self.numbers[to] < self.numbers[place] {
            return false;
        }
        self.numbers[to] < self.ends[place]
    }

    // How many codes the prefix of `to` bytes has more than that of `place` bytes; 0 where it has fewer.
    fn codes_between(&self, place: usize, to: usize) -> usize
        requires { BetweenReady self.now.depths.now place to }
        ensures { result ≡ get_or self.now.depths.now to 0 - get_or self.now.depths.now place 0 }
    {
        self.depths[to].saturating_sub(self.depths[place]) as usize
    }

    // The number of codes of a piece of the text, which is encoded again until the prepared tables take over.
    fn count_piece(
        &self,
        tables: &RowTables<'_>,
        piece: &[u8],
        from: usize,
        to: usize,
        work: &mut [u32],
    ) -> usize
        requires { let I = self.now in PieceReady (given tables.now) tables.now.rows.n piece.now I.last_codes.now
            I.numbers.now I.ends.now I.depths.now from to work.old }
        ensures { let I = self.now in PieceCounts (given tables.now) tables.now.rows.n piece.now I.last_codes.now
            I.numbers.now I.ends.now I.depths.now from to work.old result work.new }
    {
        let mut alive = BitField::new();
        let mut encoder = backtrack_encoder::start(&tables.rows, tables.area, piece);
        for _done in 0..2 * piece.len() {
            if encoder.next == NONE {
                return encoder.count;
            }
            encoder = step(tables, piece, encoder, work, &mut alive);
            if self.meets(encoder, work, from, to) {
                return encoder.count + self.codes_between(from + encoder.pos, to);
            }
        }
        encoder.count
    }

    // The count of an interval of the text, over tables in form.
    pub fn count_core(
        &self,
        tables: &RowTables<'_>,
        start: usize,
        end: usize,
        work: &mut [u32],
    ) -> usize
        requires { let I = self.now in CoreReady (given tables.now) tables.now.rows.n I.text.now I.last_codes.now
            I.numbers.now I.ends.now I.depths.now start end work.old }
        ensures { let I = self.now in CoreCounts (given tables.now) tables.now.rows.n I.text.now I.last_codes.now
            I.numbers.now I.ends.now I.depths.now start end work.old result work.new }
    {
        self.count_piece(tables, &self.text[start..end], start, end, work)
    }

    // The number of codes of the piece from `start` to `end`, the byte at the end not included: the source's
    // `IntervalEncoding::count`.
    pub fn count(
        &self,
        tables: &Tables<'_>,
        start: usize,
        end: usize,
        work: &mut [u32],
    ) -> Result<usize, Cause>
        ensures { let I = self.now in Counts (lent tables.now) I.text.now I.last_codes.now I.numbers.now I.ends.now
            I.depths.now start end work.old work.new result }
    {
        let text = self.text;
        if 4096 < text.len() {
            return Err(Cause::TooLong);
        }
        if work.len() < text.len() {
            return Err(Cause::TooShort);
        }
        let tables = tables::in_form(tables).ok_or(Cause::OutOfForm)?;
        if !self.in_form(tables.rows.n) {
            return Err(Cause::OutOfForm);
        }
        if end < start {
            return Err(Cause::BadInterval);
        }
        if text.len() < end {
            return Err(Cause::BadInterval);
        }
        Ok(self.count_core(&tables, start, end, work))
    }
}
