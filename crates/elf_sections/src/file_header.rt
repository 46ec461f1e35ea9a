ghost use Rattle.std.specs.Prelude.{◌≡◌, ◌≤◌, length};

use crate::fields::{u16_at, u64_at};
use refusal::{Kind, Place, refuse_if};

/// The first bytes of each ELF file.
const MAGIC: &[u8] = b"\x7fELF";
/// The size of a file header in bytes.
const SIZE: usize = 64;

// The offsets of the fields (System V gABI, "ELF Header", Elf64_Ehdr).
const EI_CLASS: usize = 4;

const EI_DATA: usize = 5;

const E_TYPE: usize = 16;

pub(crate) const E_PHOFF: usize = 32;

pub(crate) const E_SHOFF: usize = 40;

pub(crate) const E_PHENTSIZE: usize = 54;

pub(crate) const E_PHNUM: usize = 56;

pub(crate) const E_SHENTSIZE: usize = 58;

const E_SHNUM: usize = 60;

pub(crate) const E_SHSTRNDX: usize = 62;

// Values of the fields.
const ELFCLASS64: u8 = 2;

const ELFDATA2LSB: u8 = 1;

const ET_EXEC: u16 = 2;

const ET_DYN: u16 = 3;

/// A file that begins with a whole file header.
#[derive(Clone, Copy)]
pub(crate) struct FileHeader<'a> {
    pub file: &'a [u8],
    ghost whole: { 64 ≤ length file.now },
}

impl<'a> FileHeader<'a> {
    ghost use Rattle.std.specs.Prelude.{◌≡◌};
    ghost use Rattle.refusal.specs.Place.{Judges, first_bad};
    ghost use Rattle.elf_model.specs.Fields.{e_type, e_phoff, e_shoff, e_phentsize, e_phnum, e_shentsize, e_shnum, e_shstrndx};
    ghost use Rattle.elf_model.specs.Items.{identity_items};

    /// Judges what the file is: a little-endian ELF64 file that can be loaded.
    ///
    /// # Errors
    /// `NotElf` at 0, `NotElf64Little` at `EI_CLASS`, `BadType` at `E_TYPE`.
    pub fn identify(file: &'a [u8]) -> Result<FileHeader<'a>, Place>
        ensures { Judges (first_bad (identity_items file.now)) result
            (λ header. header.file.now ≡ file.now) }
    {
        let is_elf = file.len() >= SIZE && file.starts_with(MAGIC);
        refuse_if(!is_elf, Place::in_binary(0, Kind::NotElf))?;
        let is_64_little = file[EI_CLASS] == ELFCLASS64 && file[EI_DATA] == ELFDATA2LSB;
        refuse_if(
            !is_64_little,
            Place::in_binary(EI_CLASS, Kind::NotElf64Little),
        )?;
        let header = FileHeader { file };
        let is_program = header.kind() == ET_EXEC || header.kind() == ET_DYN;
        refuse_if(!is_program, Place::in_binary(E_TYPE, Kind::BadType))?;
        Ok(header)
    }

    /// `e_type`: what the file is for.
    fn kind(&self) -> u16
        ensures { result ≡ e_type self.now.file.now }
    {
        u16_at(self.file, E_TYPE)
    }

    /// The offset of the program headers.
    pub fn program_headers_at(&self) -> u64
        ensures { result ≡ e_phoff self.now.file.now }
    {
        u64_at(self.file, E_PHOFF)
    }

    /// The offset of the section headers, 0 where there are none.
    pub fn section_headers_at(&self) -> u64
        ensures { result ≡ e_shoff self.now.file.now }
    {
        u64_at(self.file, E_SHOFF)
    }

    /// The size of a program header in bytes.
    pub fn program_header_size(&self) -> u16
        ensures { result ≡ e_phentsize self.now.file.now }
    {
        u16_at(self.file, E_PHENTSIZE)
    }

    /// The number of program headers.
    pub fn program_header_count(&self) -> u16
        ensures { result ≡ e_phnum self.now.file.now }
    {
        u16_at(self.file, E_PHNUM)
    }

    /// The size of a section header in bytes.
    pub fn section_header_size(&self) -> u16
        ensures { result ≡ e_shentsize self.now.file.now }
    {
        u16_at(self.file, E_SHENTSIZE)
    }

    /// The number of section headers, 0 where it stands in header 0.
    pub fn section_header_count(&self) -> u16
        ensures { result ≡ e_shnum self.now.file.now }
    {
        u16_at(self.file, E_SHNUM)
    }

    /// The index of the section of names, 0xffff where it stands in header 0.
    pub fn name_section_index(&self) -> u16
        ensures { result ≡ e_shstrndx self.now.file.now }
    {
        u16_at(self.file, E_SHSTRNDX)
    }
}
