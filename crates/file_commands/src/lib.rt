// The commands of `phrases` that make and check a phrase file, and loading one for all others.
#![tactic(auto)]

mod checking;
mod loading;
mod sheets;

pub use checking::check;
pub use loading::{Dictionary, load};
pub use sheets::make_phrase_file;
