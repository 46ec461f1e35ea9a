//! Tests of the parts of a profile: values from outside.
#![tactic(auto)]

#[cfg(test)]
mod of_profile_tree;
#[cfg(test)]
mod of_range_counts;
#[cfg(test)]
mod of_way_rows;
