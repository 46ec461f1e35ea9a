//! Tests of what leads from debugging information to places: values from outside.
#![tactic(auto)]

#[cfg(test)]
mod of_context_map;
#[cfg(test)]
mod of_entry_names;
#[cfg(test)]
mod of_entry_pieces;
#[cfg(test)]
mod of_inline_cover;
#[cfg(test)]
mod of_inline_tree;
#[cfg(test)]
mod of_member_contexts;
#[cfg(test)]
mod of_unit_bases;
