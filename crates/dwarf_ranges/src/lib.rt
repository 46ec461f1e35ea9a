//! The ranges of addresses that an attribute for ranges means.
//!
//! A range list stands in `.debug_ranges` up to version 4 of DWARF, and in `.debug_rnglists` from
//! version 5 on. `list_of` says where it begins. One reader for each section reads its entries, and
//! `next_step` says which range and which base an entry means. `ranges_of` goes through a whole
//! list; who keeps what lists come to takes the steps (`entry_facts`).
//!
//! Source: DWARF 5, sections 2.17.3, 7.25 and 7.28; DWARF 4, section 2.17.3.
#![tactic(auto)]

mod entry;
mod list;
mod ranges;
mod read;
mod step;
mod walk;

pub use list::{RangeList, RangeParts, list_of};
pub use ranges::ranges_of;
pub use step::ListStep;
pub use walk::{MAX_ENTRIES, next_step};
