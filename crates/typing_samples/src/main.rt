// Typing and intervals over the phrase file E of document 01: its cases P4 to P7, and whole texts against `count`. A
// line on a whole text says how many counts were compared and how many differed. Pieces are typed over columns. Then
// every refusal of the typing calls and of the interval calls.
#![tactic(auto)]

mod interval_refusals;
mod intervals;
mod said;
mod texts;
mod typing_refusals;
mod typing_texts;

use std::io;
use tables::Tables;
use typing_columns::Side;

// All of it over tables that were built.
fn work(rt: &impl Print, tables: &Tables<'_>) -> io::Result<()> {
    typing_texts::say_samples(rt, tables)?;
    intervals::say_samples(rt, tables)?;
    let mut text = [0; 4096];
    texts::draw(&mut text, 1);
    for side in [Side::Append, Side::Prepend] {
        typing_texts::say_side(rt, side, tables, &text)?;
    }
    let mut letters = [0; 200];
    texts::draw(&mut letters, 2);
    intervals::say_pieces(rt, "letters", tables, &letters)?;
    intervals::say_pieces(rt, "one byte repeated", tables, &[b'a'; 200])?;
    for side in [Side::Append, Side::Prepend] {
        typing_refusals::say_side(rt, side, tables)?;
    }
    interval_refusals::say_refusals(rt, tables)
}

fn main(rt: HostRuntime) -> io::Result<()> {
    let file = texts::sample_e();
    let mut places = [0; 300];
    let mut lefts = [0; 300];
    let mut rights = [0; 300];
    let mut prefixes = [0; 300];
    let mut area = [0; 16384];
    // A refusal would show in each line that is printed: no later call takes tables out of form.
    let _ = dictionary::from_dictionary(
        &file,
        1,
        &mut places,
        &mut lefts,
        &mut rights,
        &mut prefixes,
        &mut area,
    );
    let tables = Tables {
        file: &file,
        places: &places,
        lefts: &lefts,
        rights: &rights,
        prefixes: &prefixes,
        area: &area,
    };
    work(&rt, &tables)
}
