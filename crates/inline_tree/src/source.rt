ghost use Rattle.std.specs.Prelude.{◌<◌, ◌-◌, ◌^◌, length};
ghost use Rattle.tree_model.specs.Origin.{origin as origin_told};
ghost use Rattle.entry_facts.specs.Meaning.{Extends, GivesOrigin};
ghost use Rattle.inline_tree.specs.Told.{Knows, source_of};

use dwarf_info::{Entry, Units};
use dwarf_ranges::RangeParts;
use elf_sections::Elf;
use entry_facts::{Info, Origin, Origins};
use key_types::Names;
use refusal::Stop;

/// What the entries of a file are read by.
#[derive(Clone, Copy)]
pub struct Source<'a, 's> {
    /// The file's headers.
    pub elf: &'s Elf<'a>,
    /// Where `.debug_info` begins in the file.
    pub start: usize,
    /// What `.debug_info` says.
    pub units: &'s Units<'a>,
    /// The sections of ranges, addresses and texts.
    pub parts: &'s RangeParts<'a>,
}

impl<'a, 's> Source<'a, 's> {
    /// The name and the start line of an entry.
    pub(crate) fn origin(
        &self,
        entry: &Entry<'a, '_>,
        names: &mut Names<'a>,
        origins: &mut Origins,
    ) -> Result<Origin, Stop>
        requires room { length names.old < 2 ^ 32 - 1 }
        requires known { Knows (source_of self.now) names.old origins.old }
        ensures told { let source = source_of self.now in
            GivesOrigin names.new result
            (origin_told source.sections.texts source.info entry.now) }
        ensures names { Extends names.old names.new }
        ensures known { Knows (source_of self.now) names.new origins.new }
    {
        let info = Info {
            start: self.start,
            units: self.units,
            texts: &self.parts.texts,
        };
        origins.origin_of(&info, entry, names)
    }
}
