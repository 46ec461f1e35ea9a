ghost use Rattle.std.specs.Prelude.{◌≡◌, filter, map, IfOk};
ghost use Rattle.refusal.specs.Place.{Judges, first_bad};
ghost use Rattle.elf_model.specs.Tables.{program_headers};
ghost use Rattle.elf_model.specs.Items.{program_table_items};
ghost use Rattle.elf_model.specs.Segments.{is_code as is_code_segment, load_of as loaded};

use crate::entries::{TableEntries, TableEntry};
use crate::fields::{passes_end, u32_at, u64_at};
use crate::file_header::{E_PHENTSIZE, E_PHNUM, E_PHOFF, FileHeader};
use load_model::LoadSegment;
use refusal::{Kind, NoMemory, Place, refuse_if};
use std::alloc::Global;
use std::marker::Model;

/// `e_phnum` where the count does not fit in it.
const PN_XNUM: u16 = 0xffff;
/// `p_type` of a segment that is loaded.
const PT_LOAD: u32 = 1;
/// `p_flags` of a segment that may be executed.
const PF_X: u32 = 1;

/// One program header: a segment's place in memory (System V gABI, "Program Header", Elf64_Phdr).
#[derive(Debug, Drop)]
pub(crate) struct ProgramHeader {
    pub kind: u32,
    pub flags: u32,
    /// Where the segment begins in the file.
    pub offset: u64,
    /// The first address.
    pub address: u64,
    /// How many bytes the segment has in memory.
    pub size: u64,
}

impl Model for ProgramHeader {
    ghost use Rattle.elf_model.specs.Tables.{ProgramHeader};

    ghost Value = { ProgramHeader };

    ghost view = { λ h. record {
      p_type = h.kind;
      p_flags = h.flags;
      p_offset = h.offset;
      p_vaddr = h.address;
      p_memsz = h.size;
    } };
}

impl TableEntry for ProgramHeader {
    ghost use Rattle.elf_model.specs.Tables.{program_header_at};

    ghost SIZE = { 56 };

    ghost entry_at = { program_header_at };

    const SIZE: u16 = 56;

    fn at(file: &[u8], at: usize) -> ProgramHeader {
        ProgramHeader {
            kind: u32_at(file, at),
            flags: u32_at(file, at + 4),
            offset: u64_at(file, at + 8),
            address: u64_at(file, at + 16),
            size: u64_at(file, at + 40),
        }
    }
}

impl ProgramHeader {
    ghost use Rattle.elf_model.specs.Segments.{is_code, load_of};

    /// Whether the segment is loaded and may be executed.
    pub fn is_code(&self) -> bool
        ensures { result ≡ is_code self.now }
    {
        self.kind == PT_LOAD && self.flags & PF_X != 0
    }

    /// How the segment is loaded.
    pub fn load(&self) -> LoadSegment
        ensures { result ≡ load_of self.now }
    {
        LoadSegment {
            offset: self.offset,
            vaddr: self.address,
            size: self.size,
        }
    }
}

/// Judges where the program headers are, and answers them.
///
/// # Errors
/// `BadHeader` at `E_PHNUM`, at `E_PHENTSIZE` or at `E_PHOFF`, in this order.
pub(crate) fn judge_program_headers<'a>(
    header: &FileHeader<'a>,
) -> Result<TableEntries<'a, ProgramHeader>, Place>
    ensures { let file = header.now.file.now in
        Judges (first_bad (program_table_items file)) result
        (λ segments. segments ≡ program_headers file) }
{
    let count = header.program_header_count();
    refuse_if(count == PN_XNUM, Place::in_binary(E_PHNUM, Kind::BadHeader))?;
    let other_size = count != 0 && header.program_header_size() != ProgramHeader::SIZE;
    refuse_if(other_size, Place::in_binary(E_PHENTSIZE, Kind::BadHeader))?;
    let at = header.program_headers_at();
    let size = u128::from(ProgramHeader::SIZE) * u128::from(count);
    let passes = passes_end(header.file, at, size);
    refuse_if(passes, Place::in_binary(E_PHOFF, Kind::BadHeader))?;
    Ok(TableEntries::new(header.file, at as usize, usize::from(count)))
}

/// The segments of code among some, as they are loaded.
///
/// # Errors
/// `NoMemory`.
pub(crate) fn loads_of(
    alloc: Global,
    segments: &TableEntries<'_, ProgramHeader>,
) -> Result<Vec<LoadSegment>, NoMemory>
    ensures { IfOk result
        (λ loads. loads.items ≡ map loaded (filter is_code_segment segments.now)) }
{
    let mut loads = Vec::new(alloc);
    for segment in segments.iter() {
        if segment.is_code() {
            loads.push(segment.load())?;
        }
    }
    Ok(loads)
}
