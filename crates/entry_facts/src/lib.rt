//! What an entry of debugging information tells of itself: an attribute by its name, the bases of
//! its unit, the name and the start line of its function or inlined call, and its pieces of code.
//!
//! The root of a unit says its base address, and what the indexes of texts, addresses and range
//! lists count from. An inlined call or a function defined out of line leaves its name to another
//! entry: `origin_of` follows the way from entry to entry, and takes the first name and the first
//! line on it. An entry spells its ranges by a range list, or by a first address and an end:
//! `pieces` reads them and keeps those that are code of the file.
//!
//! Source: DWARF 5, sections 2.13.2, 2.14, 2.15, 2.17, 3.1.1, 3.3.8, 7.26, 7.27 and 7.28; DWARF 4,
//! section 2.17; System V gABI, "Program Header".
#![tactic(auto)]

mod attributes;
mod bases;
mod findings;
mod in_unit;
mod info;
mod kept;
mod lists;
mod name;
mod origin;
mod origins;
mod pieces_of;
mod root;
mod spelled;
mod tail;
mod texts;
mod walk;
mod way;

pub use attributes::{address_at, attribute, number_of};
pub use bases::{base_address, bases_of, section_place};
pub use in_unit::InUnit;
pub use info::Info;
pub use lists::Lists;
pub use origin::Origin;
pub use origins::Origins;
pub use pieces_of::{MAX_PIECES, pieces};
pub use root::root_attribute;
