// Words and numbers of a byte text, and what the programs print.
#![tactic(auto)]

mod numbers;
mod parts;
mod saying;

pub use numbers::number;
pub use parts::{after, back, count_before, front, is, part, put, put_all, until};
pub use saying::{say, say_field, say_number, wide};
