// The sections of debugging information.
ghost use Rattle.std.specs.Prelude.{◌≡◌, ◌≤◌, ◌^◌, length, map};
ghost use Rattle.std.specs.Option.{option_map_or};
ghost use Rattle.refusal.specs.Place.{Judges, first_bad};
ghost use Rattle.elf_model.specs.Items.{lookup_item};
ghost use Rattle.binary_model.specs.Sections.{looked_up};
ghost use Rattle.binary_places.specs.Sections.{AreSections, IsSection};

use byte_view::Part;
use dwarf_ranges::RangeParts;
use dwarf_strings::Texts;
use elf_sections::Elf;
use refusal::Place;

/// The sections of debugging information, where the file has them.
#[derive(Clone, Copy)]
pub(crate) struct Sections<'a> {
    pub abbrev: Option<Part<'a>>,
    pub info: Option<Part<'a>>,
    pub line: Option<Part<'a>>,
    pub ranges: RangeParts<'a>,
}

impl<'a> Sections<'a> {
    /// Looks all of them up.
    pub fn find(elf: &Elf<'a>) -> Result<Sections<'a>, Place>
        requires { length elf.now ≤ 2 ^ 30 }
        ensures { Judges (first_bad (map (lookup_item elf.now) looked_up)) result
            (AreSections elf.now) }
    {
        let abbrev = find(elf, b".debug_abbrev")?;
        let info = find(elf, b".debug_info")?;
        let line = find(elf, b".debug_line")?;
        let str = find(elf, b".debug_str")?;
        let line_str = find(elf, b".debug_line_str")?;
        let str_offsets = find(elf, b".debug_str_offsets")?;
        let addr = find(elf, b".debug_addr")?;
        let texts = Texts {
            str,
            line_str,
            str_offsets,
            addr,
        };
        let ranges = find(elf, b".debug_ranges")?;
        let rnglists = find(elf, b".debug_rnglists")?;
        let ranges = RangeParts {
            ranges,
            rnglists,
            texts,
        };
        Ok(Sections {
            abbrev,
            info,
            line,
            ranges,
        })
    }

    /// Where `.debug_info` begins in the file; 0 where there is none.
    pub fn info_start(&self) -> usize
        ensures { result ≡ option_map_or (λ part. part.at) self.now.info 0 }
    {
        match self.info {
            Some(part) => part.at,
            None => 0,
        }
    }
}

/// The section of a name.
fn find<'a>(elf: &Elf<'a>, name: &[u8]) -> Result<Option<Part<'a>>, Place>
    requires { length elf.now ≤ 2 ^ 30 }
    ensures { Judges (lookup_item elf.now name.now) result (IsSection elf.now name.now) }
{
    elf.section(name)
}
