//! The profile of a binary and the report on its samples, from what was read of it and what was
//! counted of a branch text.
//!
//! The profile is made once (`profile_of`), here and for what is built of it. Of the binary's
//! places it makes those of the functions that the samples and the blocks ask for (`asked`). What
//! is written says nothing of the others, by `asked_laws`. `profile_with_cold` makes it of all
//! places, with lines of count 0 for those that never ran.
//!
//! By the laws the places that were made, the segments of their map, the numbers of its keys and
//! the names in them, meet all that making a profile asks of these.
#![tactic(auto)]

mod asked;
mod laws;
mod maker;
mod map_laws;
mod profiled;

pub use asked::ask_blocks;
pub use laws::{binaries_show_programs, key_ways_are_told};
pub use maker::make;
pub use map_laws::{entries_are_given, keys_have_names, places_are_given, segments_fit};
pub use profiled::{Profiled, profile_of, profile_with_cold};
