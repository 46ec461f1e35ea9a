//! What `counts`, `where` and `check` write: a branch text's counts, the place of an address, and
//! how many functions were checked.
#![tactic(auto)]

mod checked;
mod counts;
mod place;

pub use checked::checked_text;
pub use counts::counts_text;
pub use place::place_line;
