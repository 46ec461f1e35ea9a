//! What follows from how commands answer: that `check` accepts what `build` writes, and passes
//! least counts and cuts alone, that `merge` writes again what `profile` and `build` wrote, and
//! that the order of its files is no matter; that `pgo-cold` writes of samples what it writes of
//! their profile; and where an entry counts in a profile.
#![tactic(auto)]

mod laws;

pub use laws::{
    cold_lines_of_samples_or_of_their_text, entries_count_in_heads_and_targets,
    merges_in_any_order, what_build_writes_is_accepted, what_build_writes_is_merged,
    what_check_passes_is_least, what_profile_writes_is_merged,
};
