//! The cheapest way from one side of a network to a side that lacks counts, over the steps that
//! counts leave, or a set of sides that no step leaves; and what is pushed along such a way.
//!
//! The search comes to sides in the order of their distances by reduced costs, and settles each up
//! to the first one that lacks something. So it mostly looks at a few sides near its source.
//! `trace` follows the marks of a search back to its source, `least_room` tells how much all steps
//! take, and `push` moves so much over each of them.
//!
//! Source: Ahuja, Magnanti and Orlin, "Network Flows", 2.4 (residual networks), 4.5 (Dijkstra's
//! algorithm), 7.4 (augmenting paths) and 9.7 (successive shortest paths).
#![tactic(auto)]

mod around;
mod back;
mod ground;
mod look;
mod next;
mod offer;
mod pushes;
mod room;
mod settle;
mod step;
mod steps;
mod walk;

pub use back::trace;
pub use ground::Ground;
pub use pushes::push;
pub use room::least_room;
pub use step::Step;
pub use steps::is_tight_along;
pub use walk::Search;
