//! Networks in coarser units: a network of a function again, whose cuts are cuts, and whose counts
//! are set right by one unit an arc where the units become finer.
//!
//! In units of 2^s a lower bound is rounded down, and an upper bound and a weight are rounded up,
//! so that more counts are within bounds: where there are none, there are none in finer units
//! either. A solver can begin with few units, and then halve their size: counts that are least
//! double, and each is set right by at most one unit, where prices do not fit it any more.
//!
//! Source: Ahuja, Magnanti and Orlin, "Network Flows", 3.3 (scaling) and 10.2 (capacity scaling).
#![tactic(auto)]

mod laws;

pub use laws::{
    coarse_cuts_are_cuts, coarse_nets_are_nets, coarse_starts_are_small, refined_counts_fit,
    shifts_halve,
};
