//! What is read of a branch text and of a binary (load lines, range lists, units, rows), seen from
//! the other side: by where its parts stand, where the definition goes through them one by one.
#![tactic(auto)]

mod laws;

pub use laws::{
    bytes_have_one_unit, last_load_moves, lines_are_moved_by_those_before, lists_are_whole,
    live_sequences_ascend, load_lines_are_spelled, programs_are_refused_in_order,
    ranges_are_by_entry, read_headers_are_spelled, read_lengths_are_spelled, rows_are_by_unit,
    rows_are_of_their_program, rows_by_unit_are_read, rows_cover_addresses, sequences_are_cut,
    spelled_headers_are_read, spelled_lengths_are_read, units_fill_sections, unloaded_is_foreign,
    whole_lists_are_read,
};
