// What people read and write: the season's sheet, lists of codes, bursts of 40, and the page of `phrases show`.
#![tactic(auto)]

mod boxes;
mod burst_counts;
mod characters;
mod code_list;
mod escapes;
mod head;
mod page;
mod sheet;

pub use burst_counts::{bursts, left};
pub use code_list::{Codes, WrongWord, list_codes, run};
pub use escapes::{PhraseError, unescape};
pub use page::put_page;
pub use sheet::{LineError, Made, SheetError, make_file};
