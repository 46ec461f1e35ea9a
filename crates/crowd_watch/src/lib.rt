//! Hash tables that take another key where the hashes of their values cluster.
//!
//! A table finds a value by its hash, and whoever makes a file can search for values whose hashes
//! agree. So each hash depends on a key, and a `Watch` counts where the hashes of new values fall.
//! Where they cluster it gives the table another key, made of the hashes of all values so far,
//! under which values that agreed by chance no longer do. Names can be built that agree under every
//! key (docs/LIMITS.md). A table holds the same values under any key; no clause speaks of the time.
#![tactic(auto)]

mod keyed;
mod watch;

pub use keyed::Keyed;
pub use watch::Watch;
