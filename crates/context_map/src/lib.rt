//! The place of every address of a binary, its stretch and the function that is entered there, by
//! segments of one key each.
//!
//! `make` cuts the addresses of functions and inlined calls into segments, each with one key and
//! one factor, in one pass over the spans of the innermost members. `make_asked` does so for the
//! functions that are asked for: `Functions` tells which function holds each address before any
//! place is, and `Asked` gathers those whose places are wanted. A `Map` answers by binary search.
//! What all addresses have in common whose chain ends with the same member, `context_of` tells by
//! climbing from the member to its function: their names, and the frames of the calls between. A
//! span of such addresses is cut where the rows of its unit change line or discriminator, so a
//! whole part has one key and one factor, or none: `push_segments` numbers the keys and appends the
//! segments.
#![tactic(auto)]

mod asked;
mod context;
mod cuts;
mod entrance;
mod functions;
mod key;
mod map;
mod named;
mod offset;
mod parent;
mod part;
mod parts;
mod rules;
mod segments;
mod span;

pub use asked::Asked;
pub use context::{Context, context_of};
pub use entrance::Entrance;
pub use functions::Functions;
pub use map::{Map, make, make_asked};
pub use named::NamedPath;
pub use offset::{kept, line_offset};
pub use parent::parents;
pub use rules::Rules;
pub use segments::push_segments;
