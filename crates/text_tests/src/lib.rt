//! Tests of the texts that are read and written, and of the edge to files: values from outside.
#![tactic(auto)]

#[cfg(test)]
mod of_branch_counts;
#[cfg(test)]
mod of_branch_lines;
#[cfg(test)]
mod of_branch_stacks;
#[cfg(test)]
mod of_cfg_text;
#[cfg(test)]
mod of_io_edge;
#[cfg(test)]
mod of_key_types;
#[cfg(test)]
mod of_name_ranks;
#[cfg(test)]
mod of_text_scan;
