ghost use Rattle.std.specs.Prelude.{◌≡◌, ◌+◌, ◌≤◌, length};
ghost use Rattle.refusal.specs.Place.{Judges};
ghost use Rattle.refusal.specs.declared.kind.Kind.TheVariants.{BadHeader};
ghost use Rattle.elf_model.specs.Fields.{e_shoff};
ghost use Rattle.elf_model.specs.Tables.{name_index, section_count};
ghost use Rattle.elf_model.specs.Items.{fails, header_0_passes_end, section_headers_pass_end};
ghost use Rattle.elf_sections.specs.Room.{HasRoom};

use crate::entries::TableEntry;
use crate::fields::passes_end;
use crate::file_header::{E_SHOFF, FileHeader};
use crate::section_header::SectionHeader;
use refusal::{Kind, Place, refuse_if};

/// `e_shstrndx` where the index stands in header 0.
const SHN_XINDEX: u16 = 0xffff;

/// Judges whether the section headers are within the file, and answers their number.
pub(crate) fn judge_table_extent(header: &FileHeader<'_>) -> Result<u64, Place>
    ensures { Judges (fails (section_headers_pass_end header.now.file.now) 40 BadHeader) result
        (HasRoom header.now.file.now) }
{
    let count = section_count(header)?;
    let size = u128::from(SectionHeader::SIZE) * u128::from(count);
    let passes = passes_end(header.file, header.section_headers_at(), size);
    refuse_if(passes, Place::in_binary(E_SHOFF, Kind::BadHeader))?;
    Ok(count)
}

/// The number of section headers, refused where it is taken from header 0 and that passes the end.
fn section_count(header: &FileHeader<'_>) -> Result<u64, Place>
    ensures { Judges (fails (header_0_passes_end header.now.file.now) 40 BadHeader) result
        (λ count. count ≡ section_count header.now.file.now) }
{
    let count = header.section_header_count();
    if count != 0 {
        return Ok(u64::from(count));
    }
    let at = header.section_headers_at();
    let passes = passes_end(header.file, at, u128::from(SectionHeader::SIZE));
    refuse_if(passes, Place::in_binary(E_SHOFF, Kind::BadHeader))?;
    Ok(SectionHeader::at(header.file, at as usize).size)
}

/// The index of the section of names.
pub(crate) fn name_index(header: &FileHeader<'_>) -> u32
    requires { e_shoff header.now.file.now + 64 ≤ length header.now.file.now }
    ensures { result ≡ name_index header.now.file.now }
{
    let index = header.name_section_index();
    if index != SHN_XINDEX {
        return u32::from(index);
    }
    SectionHeader::at(header.file, header.section_headers_at() as usize).link
}
