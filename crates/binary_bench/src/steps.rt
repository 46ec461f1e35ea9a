// The steps from a file to its map.
use crate::tables::Tables;
use crate::watch::Watch;
use byte_view::Part;
use chain_model::Member;
use dwarf_info::{Units, read_units};
use dwarf_ranges::RangeParts;
use dwarf_strings::Texts;
use elf_sections::Elf;
use inline_tree::Source;
use key_types::Keys;
use row_table::RowTable;
use std::alloc::Global;
use std::time::CpuClock;

/// The most bytes of `.debug_info` that are read.
const MAX_BYTES: usize = 1 << 30;

/// The piece of a section, where the file has it.
fn section<'a>(elf: &Elf<'a>, name: &[u8]) -> Option<Part<'a>> {
    elf.section(name).ok()?
}

/// The sections of ranges, addresses and texts.
fn parts<'a>(elf: &Elf<'a>) -> RangeParts<'a> {
    RangeParts {
        ranges: section(elf, b".debug_ranges"),
        rnglists: section(elf, b".debug_rnglists"),
        texts: Texts {
            str: section(elf, b".debug_str"),
            line_str: section(elf, b".debug_line_str"),
            str_offsets: section(elf, b".debug_str_offsets"),
            addr: section(elf, b".debug_addr"),
        },
    }
}

/// The units of `.debug_info`.
fn units<'a>(alloc: Global, info: Part<'a>, abbrev: Option<Part<'a>>) -> Option<Units<'a>> {
    if info.len > MAX_BYTES {
        return None;
    }
    read_units(alloc, Some(info), abbrev).ok()
}

/// Makes the map of a file, and tells each step.
pub(crate) fn make_map<R: AllocGlobal + Print + Eprint + CpuClock>(
    rt: &R,
    file: &[u8],
    watch: &mut Watch,
) -> Option<()> {
    let elf = elf_sections::read(rt.alloc(), file).ok()?;
    let info = section(&elf, b".debug_info")?;
    let units = units(rt.alloc(), info, section(&elf, b".debug_abbrev"))?;
    watch.end(rt, "entries", units.entry_count())?;
    let source = Source {
        elf: &elf,
        start: info.at,
        units: &units,
        parts: &parts(&elf),
    };
    read_units_of(rt, &source, watch)
}

/// The steps from the units on.
fn read_units_of<'a, R: AllocGlobal + Print + Eprint + CpuClock>(
    rt: &R,
    source: &Source<'a, '_>,
    watch: &mut Watch,
) -> Option<()> {
    let tables = Tables::read(rt.alloc(), source.elf, source.units)?;
    watch.end(rt, "rows", tables.rows as usize)?;
    let members = members(rt.alloc(), source)?;
    watch.end(rt, "members", members.len())?;
    join(rt, &members, &tables.tables, watch)
}

/// The members.
fn members<'a>(alloc: Global, source: &Source<'a, '_>) -> Option<Vec<Member>> {
    Some(inline_tree::make(alloc, source).ok()?.members)
}

/// The last step, from members and row tables to their map.
fn join<R: AllocGlobal + Print + Eprint + CpuClock>(
    rt: &R,
    members: &[Member],
    tables: &[Option<RowTable>],
    watch: &mut Watch,
) -> Option<()> {
    let Ok(mut keys) = Keys::new(rt.alloc()) else {
        return None;
    };
    let Ok(map) = context_map::make(rt.alloc(), members, tables, &mut keys, false) else {
        return None;
    };
    watch.end(rt, "segments", map.segments().len())?;
    watch.end(rt, "keys", keys.len() as usize)
}
