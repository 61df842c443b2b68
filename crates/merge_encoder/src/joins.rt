// The joins of the codes at the live places: the places, their keys, and a queue for each row of the places whose key
// it is or was.
ghost use Rattle.std.specs.Prelude.{◌≡◌, length};
ghost use Rattle.merge_encoder.specs.Queues.{Queues};

use bitfield::BitField;
use placed_rows::NONE;
use tables::RowTables;

// A key is the row that has the code of a live place and the next one as its parts, or NONE. An entry of `pool` is the
// next older entry times 4,096, and a place; `heads` has the newest entry of each queue, and entry 0 ends a queue. A
// queue may have places that are no longer right.
// Kept: no heap: the entries of all queues stand in one array of fixed size, and name each other by number.
#[derive(Drop)]
pub(crate) struct Joins {
    pub live: BitField,
    pub keys: [u32; 4096],
    pub heads: [u32; 4096],
    pub pool: [u32; 12289],
    pub count: usize,
    pub ghost queues: { Queues heads pool count },
    pub ghost keys_room: { length keys ≡ 4096 },
}

impl Joins {
    ghost use Rattle.std.specs.Prelude.{◌≤◌, ◌<◌, unwrap_or, IfSome};
    ghost use Rattle.bitfield.specs.Bits.{is_set};
    ghost use Rattle.merge_encoder.specs.Live.{NextIs, LastIs};
    ghost use Rattle.merge_encoder.specs.Pushing.{PushReady, Pushed};
    ghost use Rattle.merge_encoder.specs.Steps.{RenewReady, Renewed, FillReady, FirstKeys, Later, State, Waiting, Around};
    ghost use Rattle.merge_encoder.specs.Steps.{Turned, Ran, RowJoined, Merged, Gathered};
    ghost use Rattle.tables.specs.Tables.{pair_given};

    // The live place after a place, below the end.
    fn next_live(&self, at: usize, end: usize) -> Option<usize>
        requires { (at < end) × (end ≤ 4096) }
        ensures { NextIs (is_set self.now.live.words) at end result }
    {
        let next = self.live.successor(at + 1)?;
        if next < end { Some(next) } else { None }
    }

    // The live place before a place.
    fn last_live(&self, at: usize) -> Option<usize>
        ensures { LastIs (is_set self.now.live.words) at result }
    {
        self.live.predecessor(at.checked_sub(1)?)
    }

    // A row, or NONE, is made the key of a place, and the place is put at the front of the row's queue.
    fn push(&mut self, place: usize, row: u32)
        requires { PushReady self.old place row }
        ensures { Pushed self.old place row self.new }
    {
        self.keys[place] = row;
        // Kept: no plainer: `pair_check` answers a row or NONE, and a key is that answer.
        if row == NONE {
            return;
        }
        let queue = row as usize;
        self.pool[self.count] = self.heads[queue] * 4096 + place as u32;
        self.heads[queue] = self.count as u32;
        self.count += 1;
    }

    // The key of a place is found anew, the next live place, if there is one, being given.
    fn renew(&mut self, tables: &RowTables<'_>, codes: &[u32], at: usize, next: Option<usize>)
        requires { let t = tables.now in let end = length codes.now in
            RenewReady (pair_given t) t.rows.n end codes.now self.old at (unwrap_or next end)
            × IfSome next (λ place. place < end) }
        ensures { let t = tables.now in let end = length codes.now in
            Renewed (pair_given t) t.rows.n end codes.now self.old at (unwrap_or next end) self.new }
    {
        let Some(next) = next else {
            self.push(at, NONE);
            return;
        };
        let limit = tables.rows.n as u32;
        let row = pair_check::join_before(tables, limit, limit, codes[at], codes[next]);
        self.push(at, row);
    }

    // The keys of the codes of a text's bytes, which are all live. No keys and empty queues are given.
    pub fn fill(&mut self, tables: &RowTables<'_>, codes: &[u32])
        requires { let t = tables.now in
            FillReady (pair_given t) t.rows.n (length codes.now) codes.now self.old }
        ensures { let t = tables.now in
            FirstKeys (pair_given t) t.rows.n (length codes.now) codes.now self.new }
    {
        for next in 1..codes.len() {
            self.renew(tables, codes, next - 1, Some(next));
        }
    }

    // Whether the live place before a place, if there is one, has the key `row`: then that place is joined first.
    fn is_later(&self, last: Option<usize>, at: usize, row: u32) -> bool
        requires { IfSome last (λ place. place < at) × (at < 4096) }
        ensures { Later self.now.keys (unwrap_or last at) at row result }
    {
        let Some(last) = last else {
            return false;
        };
        self.keys[last] == row
    }

    // The code at a place and the one after it are made one, the live places around them being given.
    fn join_at(
        &mut self,
        tables: &RowTables<'_>,
        codes: &mut [u32],
        row: u32,
        last: Option<usize>,
        at: usize,
        next: usize,
        after: Option<usize>,
    )
        requires state { let t = tables.now in let len = length codes.old in
            State (pair_given t) t.rows.n len self.old codes.old
            × Around (is_set self.old.live.words) self.old.keys t.rows.n len row (unwrap_or last at) at next
            (unwrap_or after len) }
        requires below { IfSome last (λ place. place < at) × IfSome after (λ place. place < length codes.old) }
        ensures { let t = tables.now in
            Turned (pair_given t) t.rows.n (length codes.old) self.old codes.old row (unwrap_or last at) at next
            self.new codes.new }
    {
        codes[at] = row;
        self.live.clear_bit(next);
        self.keys[next] = NONE;
        self.renew(tables, codes, at, after);
        if let Some(last) = last {
            self.renew(tables, codes, last, Some(at));
        }
    }

    // The joins to a row from a place on, each at the code after the one joined before, as far as there are any.
    fn join_run(&mut self, tables: &RowTables<'_>, codes: &mut [u32], row: u32, first: usize)
        requires { let t = tables.now in
            State (pair_given t) t.rows.n (length codes.old) self.old codes.old
            × ((row < t.rows.n) × (first < 4096)) }
        ensures { let t = tables.now in
            Ran (pair_given t) t.rows.n (length codes.old) self.old codes.old row first self.new codes.new }
    {
        let mut at = first;
        while self.keys[at] == row {
            let last = self.last_live(at);
            if self.is_later(last, at, row) {
                return;
            }
            let Some(next) = self.next_live(at, codes.len()) else {
                return;
            };
            let after = self.next_live(next, codes.len());
            self.join_at(tables, codes, row, last, at, next, after);
            let Some(after) = after else {
                return;
            };
            at = after;
        }
    }

    // All joins to a row, from the places in its queue on.
    fn join_queue(&mut self, tables: &RowTables<'_>, codes: &mut [u32], row: u32)
        requires { let t = tables.now in
            State (pair_given t) t.rows.n (length codes.old) self.old codes.old × (row < t.rows.n) }
        ensures { let t = tables.now in
            RowJoined (pair_given t) t.rows.n (length codes.old) self.old codes.old row self.new codes.new }
    {
        let mut entry = self.heads[row as usize];
        while entry > 0 {
            let met = self.pool[entry as usize];
            self.join_run(tables, codes, row, (met % 4096) as usize);
            entry = met / 4096;
        }
    }

    // The joins to each row, in the order of the rows, of the codes at the live places.
    pub fn merge(&mut self, tables: &RowTables<'_>, codes: &mut [u32])
        requires { let t = tables.now in
            State (pair_given t) t.rows.n (length codes.old) self.old codes.old × Waiting self.old 0 }
        ensures { let t = tables.now in
            Merged (pair_given t) t.rows.n (length codes.old) self.old codes.old self.new codes.new }
    {
        for row in 0..tables.rows.n {
            self.join_queue(tables, codes, row as u32);
        }
    }

    // The codes at the live places, to the front of `out`, and how many.
    pub fn gather(&self, codes: &[u32], out: &mut [u32]) -> usize
        requires { length codes.now ≤ length out.old }
        ensures { Gathered self.now.live.words codes.now (length codes.now) out.old out.new result }
    {
        let mut count = 0;
        for (at, code) in codes.iter().enumerate() {
            if self.live.is_set(at) {
                out[count] = *code;
                count += 1;
            }
        }
        count
    }
}
