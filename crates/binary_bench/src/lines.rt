// The line programs of a binary and their rows.
use crate::Amount;
use byte_view::{Cur, Part};
use elf_sections::Elf;
use line_program::rows;
use std::alloc::Global;

/// The programs stand one behind the other.
pub(crate) fn count(alloc: Global, elf: &Elf<'_>) -> Option<Amount> {
    let section = elf.section(b".debug_line").ok()??;
    let end = section.at + section.len;
    let mut at = section.at;
    let (mut groups, mut items) = (0usize, 0usize);
    while at < end {
        let rest = Part {
            file: section.file,
            at,
            len: end - at,
        };
        let len = Cur::new(rest).u32().ok()?;
        items = items.checked_add(rows(alloc, rest, 0).ok()?.len())?;
        groups = groups.checked_add(1)?;
        at = at.checked_add(len as usize + 4)?;
    }
    Some(Amount {
        groups,
        items,
        bytes: section.len,
    })
}
