// The units and entries of a binary.
use crate::Amount;
use dwarf_info::read_units;
use elf_sections::Elf;
use std::alloc::Global;

/// The most bytes of `.debug_info` that are read.
const MAX_BYTES: usize = 1 << 30;

pub(crate) fn count(alloc: Global, elf: &Elf<'_>) -> Option<Amount> {
    let info = elf.section(b".debug_info").ok()??;
    let abbrev = elf.section(b".debug_abbrev").ok()?;
    if info.len > MAX_BYTES {
        return None;
    }
    let units = read_units(alloc, Some(info), abbrev).ok()?;
    Some(Amount {
        groups: units.units().len(),
        items: units.entry_count(),
        bytes: info.len,
    })
}
