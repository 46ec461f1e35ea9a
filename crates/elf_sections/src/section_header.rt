ghost use Rattle.std.specs.Prelude.{◌≡◌, ⊤, None};
ghost use Rattle.refusal.specs.Place.{Judges};
ghost use Rattle.elf_model.specs.Fields.{passes_end};
ghost use Rattle.elf_model.specs.Sections.{is_unused, has_bytes, is_compressed};
ghost use Rattle.elf_model.specs.Items.{extent_item};

use crate::entries::TableEntry;
use crate::fields::{passes_end, u32_at, u64_at};
use byte_view::Part;
use refusal::{Kind, Place, refuse_if};
use std::marker::Model;

/// `sh_type` of a header that describes no section.
const SHT_NULL: u32 = 0;
/// `sh_type` of a section that takes no space in the file.
const SHT_NOBITS: u32 = 8;
/// `sh_flags` of a section whose bytes are compressed.
const SHF_COMPRESSED: u64 = 0x800;

/// One section header (System V gABI, "Sections", Elf64_Shdr), and the offset in the file at which
/// it stands.
#[derive(Debug, Drop)]
pub(crate) struct SectionHeader {
    pub at: usize,
    pub name: u32,
    pub kind: u32,
    pub flags: u64,
    pub offset: u64,
    pub size: u64,
    pub link: u32,
}

impl Model for SectionHeader {
    ghost use Rattle.elf_model.specs.Tables.{SectionHeader};

    ghost Value = { SectionHeader };

    ghost view = { λ h. record {
      at = h.at;
      sh_name = h.name;
      sh_type = h.kind;
      sh_flags = h.flags;
      sh_offset = h.offset;
      sh_size = h.size;
      sh_link = h.link;
    } };
}

impl TableEntry for SectionHeader {
    ghost use Rattle.elf_model.specs.Tables.{section_header_at};

    ghost SIZE = { 64 };

    ghost entry_at = { section_header_at };

    const SIZE: u16 = 64;

    fn at(file: &[u8], at: usize) -> SectionHeader {
        SectionHeader {
            at,
            name: u32_at(file, at),
            kind: u32_at(file, at + 4),
            flags: u64_at(file, at + 8),
            offset: u64_at(file, at + 24),
            size: u64_at(file, at + 32),
            link: u32_at(file, at + 40),
        }
    }
}

impl SectionHeader {
    ghost use Rattle.elf_sections.specs.Found.{IsPiece};

    /// Whether the header describes no section.
    pub fn is_unused(&self) -> bool
        ensures { result ≡ is_unused self.now }
    {
        self.kind == SHT_NULL
    }

    /// Whether the section has bytes in the file.
    pub fn has_bytes(&self) -> bool
        ensures { result ≡ has_bytes self.now }
    {
        self.kind != SHT_NULL && self.kind != SHT_NOBITS
    }

    /// Whether the section's bytes are compressed.
    pub fn is_compressed(&self) -> bool
        ensures { result ≡ is_compressed self.now }
    {
        self.flags & SHF_COMPRESSED != 0
    }

    /// Refuses a section whose bytes pass the end of the file.
    ///
    /// # Errors
    /// `SectionPastEnd` at the header.
    pub fn judge_extent(&self, file: &[u8]) -> Result<(), Place>
        ensures { Judges (extent_item file.now self.now) result (λ _. ⊤) }
    {
        let passes = self.has_bytes() && self.passes_end(file);
        refuse_if(passes, Place::in_binary(self.at, Kind::SectionPastEnd))
    }

    /// Whether the extent that the header gives passes the end of the file.
    fn passes_end(&self, file: &[u8]) -> bool
        ensures { result ≡ passes_end file.now self.now.sh_offset self.now.sh_size }
    {
        passes_end(file, self.offset, u128::from(self.size))
    }

    /// The section's bytes; without any, an empty piece at its offset or, where that is past the
    /// end, at the end.
    pub fn piece<'a>(&self, file: &'a [u8]) -> Part<'a>
        requires { extent_item file.now self.now ≡ None }
        ensures { IsPiece file.now self.now result }
    {
        let at = self.offset.min(file.len() as u64) as usize;
        let len = if self.has_bytes() {
            self.size as usize
        } else {
            0
        };
        Part { file, at, len }
    }
}
