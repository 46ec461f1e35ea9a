use crate::entries::{TableEntries, TableEntry};
use crate::file_header::{E_SHENTSIZE, E_SHSTRNDX, FileHeader};
use crate::header_0::{judge_table_extent, name_index};
use crate::names::{SectionNames, end_of_texts};
use crate::section_header::SectionHeader;
use refusal::{Kind, Place, refuse_if};

/// The section header table of a file, and in it the index of the section of names, 0 where there
/// is none.
#[derive(Debug, Drop)]
pub(crate) struct SectionTable<'a> {
    pub entries: TableEntries<'a, SectionHeader>,
    pub name_index: u32,
}

impl<'a> SectionTable<'a> {
    ghost use Rattle.std.specs.Prelude.{◌≡◌, drop};
    ghost use Rattle.refusal.specs.Place.{Judges, first_bad};
    ghost use Rattle.elf_model.specs.Items.{name_table_item, section_table_items};
    ghost use Rattle.elf_sections.specs.Tables.{AreNames, IsSectionTable, named};

    /// Judges where the section headers are, and which is that of the section of names.
    ///
    /// # Errors
    /// `BadHeader` at `E_SHENTSIZE`, at `E_SHOFF` or at `E_SHSTRNDX`, in this order.
    pub fn judge(header: &FileHeader<'a>) -> Result<SectionTable<'a>, Place>
        ensures { Judges (first_bad (section_table_items header.now.file.now)) result
            (IsSectionTable header.now.file.now) }
    {
        let at = header.section_headers_at();
        if at == 0 {
            return Ok(SectionTable {
                entries: TableEntries::new(header.file, 0, 0),
                name_index: 0,
            });
        }
        let other_size = header.section_header_size() != SectionHeader::SIZE;
        refuse_if(other_size, Place::in_binary(E_SHENTSIZE, Kind::BadHeader))?;
        let count = judge_table_extent(header)?;
        let name_index = name_index(header);
        let no_header = u64::from(name_index) >= count;
        refuse_if(no_header, Place::in_binary(E_SHSTRNDX, Kind::BadHeader))?;
        Ok(SectionTable {
            entries: TableEntries::new(header.file, at as usize, count as usize),
            name_index,
        })
    }

    /// The headers behind header 0.
    pub fn headers(&self) -> TableEntries<'a, SectionHeader>
        ensures { result ≡ drop 1 self.now.entries }
    {
        let mut headers = self.entries.iter();
        let _header_0 = headers.next();
        headers
    }

    /// The header of the section of names, where there is one.
    fn name_section(&self) -> Option<SectionHeader>
        ensures { result ≡ named self.now }
    {
        if self.name_index == 0 {
            return None;
        }
        self.entries.get(self.name_index as usize)
    }

    /// Judges where the names of the sections are.
    pub fn judge_names(&self, file: &'a [u8]) -> Result<SectionNames<'a>, Place>
        requires { IsSectionTable file.now self.now }
        ensures { Judges (name_table_item file.now) result (AreNames file.now) }
    {
        let Some(header) = self.name_section() else {
            return Ok(SectionNames {
                table: None,
                end: 0,
            });
        };
        header.judge_extent(file)?;
        let table = header.piece(file).bytes();
        let end = end_of_texts(table);
        Ok(SectionNames {
            table: Some(table),
            end,
        })
    }
}
