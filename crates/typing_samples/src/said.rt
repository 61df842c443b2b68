// What is printed, and how many answers differ.
use causes::Cause;
use std::{fmt, io};
use typing_columns::Side;

// The name of a direction of typing.
pub(crate) fn name_of(side: Side) -> &'static str {
    match side {
        Side::Append => "append",
        Side::Prepend => "prepend",
    }
}

// An answer by its number and its place.
#[derive(Drop)]
pub(crate) struct Answered(pub(crate) Result<usize, Cause>);

impl fmt::Display for Answered {
    fn fmt<W: fmt::Write>(&self, f: &mut fmt::Formatter<W>) -> fmt::Result {
        let number = causes::answer_number(self.0);
        let place = causes::answer_place(self.0);
        write!(f, "{number} {place}")
    }
}

// Whether what was lent is as before.
// Kept: no plainer: the flag is what is said, and no other step hangs on it.
pub(crate) fn kept_or_changed(kept: bool) -> &'static str {
    if kept { "as before" } else { "CHANGED" }
}

// The number that an answer holds, or the refusal and its place.
pub(crate) fn say_answer(
    rt: &impl Print,
    name: &str,
    answer: Result<usize, Cause>,
) -> io::Result<()> {
    match answer {
        Ok(count) => println!(rt; "{name}: {count}"),
        Err(cause) => {
            let number = cause.number();
            let place = cause.place();
            println!(rt; "{name}: refused {number}, place {place}")
        }
    }
}

// How many answers were compared, and how many of them differed.
#[derive(Default, Drop)]
pub(crate) struct Tally {
    compared: u64,
    differing: u64,
}

impl Tally {
    // Compares two answers. A refusal differs from every answer.
    pub(crate) fn compare(&mut self, found: Result<usize, Cause>, wanted: Result<usize, Cause>) {
        self.compared = self.compared.saturating_add(1);
        match (found, wanted) {
            (Ok(count), Ok(other)) if count == other => {}
            _ => self.differing = self.differing.saturating_add(1),
        }
    }
}

impl fmt::Display for Tally {
    fn fmt<W: fmt::Write>(&self, f: &mut fmt::Formatter<W>) -> fmt::Result {
        let compared = self.compared;
        let differing = self.differing;
        write!(f, "compared {compared}, differing {differing}")
    }
}
