// An entry as a member.
ghost use Rattle.std.specs.Prelude.{◌≡◌};
ghost use Rattle.tree_model.specs.Members.{number_in as number_in_told};
ghost use Rattle.inline_tree.specs.Told.{call_made, function_made};

use chain_model::Member;
use dwarf_info::{DW_AT_CALL_LINE, DW_AT_GNU_DISCRIMINATOR, Entry};
use entry_facts::{Origin, attribute, number_of};
use item_lists::Items;

/// The number that an attribute of an entry is, and 0 without the attribute.
fn number_in(name: u64, entry: &Entry<'_, '_>) -> u64
    ensures { result ≡ number_in_told name entry.now }
{
    match attribute(&entry.found, name) {
        Some(found) => number_of(found.value),
        None => 0,
    }
}

/// A function with pieces.
pub(crate) fn function_of(entry: &Entry<'_, '_>, origin: Origin, pieces: Vec<(u64, u64)>) -> Member
    ensures { result ≡ function_made entry.now origin pieces.items }
{
    Member {
        depth: 0,
        unit: entry.unit,
        name: origin.name,
        start: origin.line,
        line: 0,
        disc: 0,
        pieces: Items::new(pieces),
    }
}

/// A call with pieces, so many calls deep.
pub(crate) fn call_of(
    depth: u8,
    entry: &Entry<'_, '_>,
    origin: Origin,
    pieces: Vec<(u64, u64)>,
) -> Member
    ensures { result ≡ call_made depth entry.now origin pieces.items }
{
    Member {
        depth,
        unit: entry.unit,
        name: origin.name,
        start: origin.line,
        line: number_in(DW_AT_CALL_LINE, entry),
        disc: (number_in(DW_AT_GNU_DISCRIMINATOR, entry) % (1 << 32)) as u32,
        pieces: Items::new(pieces),
    }
}
