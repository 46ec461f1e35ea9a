//! The network of a function: an arc for each block and edge, for its calls and for its returns,
//! with the bounds and the costs of the counts on them.
//!
//! `net_of` makes it from a function and its weights. Beside its arcs a `Net` keeps which of them
//! leave and enter each side; `Net::coarse` is the same network in coarser units. `Flow`, `Prices`
//! and `Nodes` are what can be said of a network, and `cost` and `cut_sums` add up over its arcs.
//!
//! Source: Ahuja, Magnanti and Orlin, "Network Flows", chapters 2, 6, 9 and 10.
#![tactic(auto)]

mod arcs;
mod coarse;
mod costs;
mod cut;
mod flow;
mod net;
mod rows;
mod sides;
mod units;

pub use arcs::{free_arc, is_below};
pub use costs::cost;
pub use cut::cut_sums;
pub use flow::{Flow, Nodes, Prices, Solved};
pub use flow_model::Arc;
pub use net::{Net, net_of};
pub use sides::{ROOT, in_side, out_side};
