// Every refusal of the typing calls. Each case lends a slice of records that hold a pattern, and a head; does extend,
// truncate, `token_count` and push, one after the other; and prints their answers, and the head's length and whether
// every record is as before, once before push and once after it. Truncate is told to keep more than there is, so that
// nothing but added bytes can change anything. What must be printed comes from tools/refusals.py.
use crate::said::{Answered, kept_or_changed, name_of};
use crate::texts::with_area;
use std::io;
use tables::Tables;
use typing::{Head, State};
use typing_columns::Side;

// A case: how many records the slice has, the head's length, which record is out of form, how many entries of the
// search area are lent (the tables are out of form with fewer than 16,384), how many bytes are typed.
#[derive(Clone, Copy)]
struct Case(usize, usize, Option<usize>, usize, usize);

const CASES: [Case; 11] = [
    Case(3, 1, None, 16384, 1),
    Case(3, 2, None, 16384, 2),
    Case(3, 3, None, 16384, 1),
    Case(3, 4, None, 16384, 1),
    Case(3, 2, Some(1), 16384, 1),
    Case(3, 3, Some(1), 16384, 1),
    Case(3, 1, None, 16383, 1),
    Case(3, 1, None, 16384, 4097),
    Case(3, 1, None, 16383, 4097),
    Case(4100, 4096, None, 16384, 1),
    Case(4100, 4097, None, 16384, 1),
];

// The record at a place: that of a text of zeros, but for the one out of form, whose code is of another byte.
fn pattern(place: usize, wrong: Option<usize>) -> State {
    if wrong == Some(place) {
        return State {
            byte: 0,
            code: 1,
            count: 1,
        };
    }
    State {
        byte: 0,
        code: 0,
        count: (place % 65536) as u32 + 1,
    }
}

// So many records that hold the pattern, at the front of the room for them; all of it if there are fewer.
fn patterns(room: &mut [State], records: usize, wrong: Option<usize>) -> &mut [State] {
    let end = records.min(room.len());
    let states = &mut room[..end];
    for (place, state) in states.iter_mut().enumerate() {
        *state = pattern(place, wrong);
    }
    states
}

// Whether every record holds the pattern.
fn is_kept(states: &[State], wrong: Option<usize>) -> bool {
    states
        .iter()
        .enumerate()
        .all(|(place, state)| *state == pattern(place, wrong))
}

// Does the calls of a case, and prints its numbers, their answers and what they left. Not inlined: its records take
// stack only while it runs.
#[inline(never)]
fn try_case(rt: &impl Print, side: Side, tables: &Tables<'_>, case: Case) -> io::Result<()> {
    let Case(records, len, wrong, entries, typed) = case;
    let number = wrong.unwrap_or(9999);
    print!(rt; "records {records} {len} {number} {entries} {typed}: ")?;
    let tables = with_area(tables, entries);
    let mut room = [pattern(0, None); 4100];
    let states = patterns(&mut room, records, wrong);
    let mut head = Head { len };
    let ones = [1; 4097];
    let bytes = ones.get(..typed).unwrap_or(&ones);
    let extended = Answered(typing::extend(&tables, side, &mut head, states, bytes));
    let cut = Answered(typing::truncate(&mut head, states, usize::MAX));
    let counted = Answered(typing::token_count(&tables, side, &head, states));
    print!(rt; "extend {extended}, truncate {cut}, token_count {counted}, ")?;
    let len = head.len;
    let kept = kept_or_changed(is_kept(states, wrong));
    print!(rt; "length {len}, {kept}; ")?;
    let pushed = Answered(typing::push(&tables, side, &mut head, states, 1));
    let len = head.len;
    let kept = kept_or_changed(is_kept(states, wrong));
    println!(rt; "push {pushed}, length {len}, {kept}")
}

// All cases of one side.
pub(crate) fn say_side(rt: &impl Print, side: Side, tables: &Tables<'_>) -> io::Result<()> {
    let name = name_of(side);
    println!(rt; "{name}: records, length, record out of form, search area, bytes")?;
    for case in CASES {
        try_case(rt, side, tables, case)?;
    }
    Ok(())
}
