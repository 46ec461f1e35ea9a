ghost use Rattle.std.specs.Prelude.{◌≡◌};
ghost use Rattle.refusal.specs.Place.{JudgesUnlessNoMemory, first_bad};
ghost use Rattle.elf_model.specs.Items.{items};

use crate::entries::TableEntries;
use crate::file_header::FileHeader;
use crate::judgement::judge_sections;
use crate::names::SectionNames;
use crate::program_header::{ProgramHeader, judge_program_headers, loads_of};
use crate::reach::{Reach, reached, reaches_of};
use crate::section_header::SectionHeader;
use crate::section_table::SectionTable;
use byte_view::Part;
use load_model::LoadSegment;
use refusal::{Kind, NoMemory, Place, Stop, refuse_if};
use std::alloc::Global;
use std::marker::Model;

/// An ELF64 file whose headers are good: its sections, and the ranges of addresses that hold its
/// code.
///
/// It borrows the file's bytes, and each section that it finds is lent from them.
#[derive(Debug, Drop)]
pub struct Elf<'a> {
    file: &'a [u8],
    segments: TableEntries<'a, ProgramHeader>,
    /// How far code reaches from each address on.
    code: Vec<Reach>,
    sections: SectionTable<'a>,
    names: SectionNames<'a>,
}

impl<'a> Model for Elf<'a> {
    ghost use Rattle.std.specs.Prelude.{ℕ, List};

    ghost Value = { List ℕ };

    ghost use Rattle.elf_sections.specs.Judged.{IsJudged};

    ghost view = { λ elf. elf.file.now };

    ghost invariant = { IsJudged };
}

/// Judges the headers of a file, whose size is the caller's to judge.
///
/// # Errors
/// The first place, in the order of the file header, the section of names and the sections, where
/// the file breaks a rule of docs/FORMATS.md ("ELF files"); or `NoMemory`.
///
/// Source: System V gABI, "ELF Header", "Sections", "String Table", "Program Header".
// Why: A live range is found by one search in the segments of code in order: a walk over 65,535
// headers for each of millions of ranges would take hours. That list is made behind all that can be
// refused, so want of memory takes no refusal's place.
#[tactic(auto, using(crate::proofs::Items::first_bad_items))]
pub fn read(alloc: Global, file: &[u8]) -> Result<Elf<'_>, Stop>
    ensures { JudgesUnlessNoMemory (first_bad (items file.now)) result
        (λ elf. elf ≡ file.now) }
{
    let header = FileHeader::identify(file)?;
    let segments = judge_program_headers(&header)?;
    let sections = SectionTable::judge(&header)?;
    let names = sections.judge_names(file)?;
    judge_sections(&sections, file, &names)?;
    let code = reaches_of(alloc, &segments)?;
    Ok(Elf {
        file,
        segments,
        code,
        sections,
        names,
    })
}

impl<'a> Elf<'a> {
    ghost use Rattle.std.specs.Prelude.{◌≡◌, None, IfOk, IfSome, slice_get};
    ghost use Rattle.refusal.specs.Place.{Judges};
    ghost use Rattle.elf_model.specs.Sections.{section};
    ghost use Rattle.elf_model.specs.Segments.{is_live, code_loads};
    ghost use Rattle.elf_model.specs.Items.{extent_item, lookup_item};
    ghost use Rattle.elf_sections.specs.Found.{Finds};

    /// The piece of the first section of a name, where there is one. A section without bytes in the
    /// file has an empty piece.
    ///
    /// # Errors
    /// `Kind::Compressed` at the section's header, where the section's bytes are compressed.
    ///
    /// Source: System V gABI, "Sections", "String Table".
    #[tactic(auto, unfolding(elf_model::specs::Items::lookup_item))]
    pub fn section(&self, name: &[u8]) -> Result<Option<Part<'a>>, Place>
        ensures { Judges (lookup_item self.now name.now) result
            (Finds self.now (section self.now name.now)) }
    {
        let Some(header) = self.find(name) else {
            return Ok(None);
        };
        let place = Place::in_binary(header.at, Kind::Compressed);
        refuse_if(header.is_compressed(), place)?;
        Ok(Some(header.piece(self.file)))
    }

    /// Whether the addresses from `lo` up to `hi`, `hi` left out, are code: `lo` is not 0, there
    /// are some, and one loaded executable segment holds them all.
    ///
    /// Source: System V gABI, "Program Header".
    #[tactic(auto, unfolding(elf_model::specs::Segments::is_live))]
    pub fn runs(&self, lo: u64, hi: u64) -> bool
        ensures { result ≡ is_live self.now lo hi }
    {
        0 < lo && lo < hi && u128::from(hi) <= reached(&self.code, lo)
    }

    /// The loaded executable segment of a number, counted from 0 in the order of the headers, where
    /// there is one.
    ///
    /// Source: System V gABI, "Program Header".
    #[tactic(auto, unfolding(elf_model::specs::Segments::code_loads))]
    pub fn load(&self, index: usize) -> Option<LoadSegment>
        ensures { result ≡ slice_get (code_loads self.now) index }
    {
        let mut before = index;
        for segment in self.segments.iter() {
            if segment.is_code() {
                if before == 0 {
                    return Some(segment.load());
                }
                before -= 1;
            }
        }
        None
    }

    /// All loaded executable segments, in the order of the headers.
    ///
    /// # Errors
    /// `NoMemory`.
    ///
    /// Source: System V gABI, "Program Header".
    #[tactic(auto, unfolding(elf_model::specs::Segments::code_loads))]
    pub fn loads(&self, alloc: Global) -> Result<Vec<LoadSegment>, NoMemory>
        ensures { IfOk result (λ loads. loads.items ≡ code_loads self.now) }
    {
        loads_of(alloc, &self.segments)
    }

    /// The header of the first section of a name.
    #[tactic(auto, unfolding(elf_model::specs::Sections::section))]
    fn find(&self, name: &[u8]) -> Option<SectionHeader>
        ensures found { result ≡ section self.now name.now }
        ensures good { IfSome result (λ header. extent_item self.now header ≡ None) }
    {
        for header in self.sections.headers() {
            if !header.is_unused() && self.names.has(header.name, name) {
                return Some(header);
            }
        }
        None
    }
}
