//! What the network of a function is, which counts on its arcs are a circulation of least cost, and
//! what it means, block by block, that counts conserve within bounds.
//!
//! Definitions in `specs/`, with examples in `proofs/`, and laws about them as functions with an
//! empty body. Two of the laws let a checker work without a solver: prices that fit a circulation
//! show that no other one costs less, and a cut shows that there is none. The network puts calls
//! and returns on arcs of their own, so that all is one circulation. What a reader of counts sees
//! instead is that each block runs as often as it is entered and left: a law shows that both are
//! the same. Here stand also the tests of a block and of an edge, with the law that counts and
//! prices which pass them all are least; and within which limits each network of a function is.
//!
//! Source: Ahuja, Magnanti and Orlin, "Network Flows", chapters 2 (circulations), 6 (cuts) and 9
//! (potentials, reduced costs).
#![tactic(auto)]

mod arc;
mod balance_laws;
mod laws;

pub use arc::Arc;
pub use balance_laws::{balance_is_conservation, nets_are_limited, tests_show_least_counts};
pub use laws::{a_cut_shows_there_is_none, fitting_prices_show_least, the_root_conserves};
