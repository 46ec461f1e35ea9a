//! How often each branch was taken, and how often each range between two branches of a sample ran.
//!
//! The layer above makes `Counts`, adds samples to them, and takes the distinct pairs out, each
//! with its number. A table has a row for each distinct pair of a list, with how often the pair
//! stands there. By the laws sums over rows stand for numbers of members, of branches or of sampled
//! ranges, and rows in order for the distinct pairs.
#![tactic(auto)]

mod counts;
mod laws;
mod order;
mod table;

pub use counts::{Counts, CountsStop};
pub use laws::{rows_tally_in_any_order, sorted_rows_are_distinct_pairs, tables_count_members};
