//! What is left to do on a network: the steps that counts leave, along arcs and against them, their
//! reduced costs, and what keeps fitting as prices move and counts are pushed.
//!
//! A step along an arc raises its count and a step against it lowers it. Laws say what each part of
//! a solver rests on: that no step costs less than prices allow, that a set of nodes which no step
//! leaves is a cut, that prices may be moved by distances, and that a push of counts at no reduced
//! cost keeps prices fitting.
//!
//! Source: Ahuja, Magnanti and Orlin, "Network Flows", 2.4 (residual networks), 9.3 (reduced costs)
//! and 9.7 (successive shortest paths).
#![tactic(auto)]

mod laws;

pub use laws::{
    circulations_are_loads, closed_sides_are_a_cut, moved_prices_fit, pushes_keep_prices_fitting,
    starting_counts_fit, steps_judge_prices, upper_bounds_agree,
};
