// Files by name, refusals in words, and what the commands of `phrases` say.
#![tactic(auto)]

mod answers;
mod files;
mod refusals;
mod rows;
mod saying;

pub use answers::{Stop, argument_error, file_error, refused};
pub use files::{ReadError, read_full, read_given, read_named, write_named};
pub use refusals::{Fields, Reason, Refused, Row};
pub use rows::longest;
pub use saying::{Codes, Escaped, Many, Quoted};
