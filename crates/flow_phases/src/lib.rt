//! Counts of least cost for a network, or a cut, within a stated number of augmentations, which
//! are counted.
//!
//! `solve_counted` first tries with a few augmentations: most functions end there. Where these are
//! spent it begins anew, with the network in units of 2^n, in which each count to start from is at
//! most 1, and halves the units from phase to phase. What was least doubles, and each count is set
//! right by at most one unit where the prices do not fit it any more, so a phase begins with an
//! excess of at most the number of arcs; and each augmentation takes one unit of it or more. A set
//! of sides that is a cut in coarser units is a cut. The last phase is in units of 1, on the
//! network itself.
//!
//! Source: Ahuja, Magnanti and Orlin, "Network Flows", 3.3 and 10.2 (scaling; here the units of the
//! network are scaled, and not the amounts of the augmentations).
#![tactic(auto)]

mod counted;
mod digits;
mod phase;
mod phases;
mod refining;
mod state;

pub use counted::solve_counted;
pub use digits::starts_within;
