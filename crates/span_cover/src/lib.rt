//! Which member each address belongs to, as disjoint spans; and the stretches of one function, the
//! longest runs of addresses that it holds, with a number each.
//!
//! `cover` gives each address the innermost member of its chain, `cover_asked` does so in functions
//! that are asked for, and `function_cover` gives it the function that holds it. Members of one
//! depth lie behind one another in the list, each with what is inlined in it, so the cover of a
//! depth is made of those of the depth below. `Stretches::make` joins disjoint spans, each owned by
//! a function, where they touch and have one owner. `number` tells an address the number of its
//! stretch, `function` its function, and `between` tells the stretches between two addresses.
#![tactic(auto)]

mod frame;
mod functions;
mod join;
mod laws;
mod level;
mod number;
mod pieces;
mod stretches;
mod whole;

pub use functions::function_cover;
pub use laws::numbers_are_stretches;
pub use stretches::Stretches;
pub use whole::{cover, cover_asked};
