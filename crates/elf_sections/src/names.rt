ghost use Rattle.std.specs.Prelude.{◌≡◌, false, not, is_none};
ghost use Rattle.std.specs.Str.{bytes_eq};
ghost use Rattle.std.specs.Option.{option_copied, option_map_or};
ghost use Rattle.elf_model.specs.Sections.{name_in, text_at};
ghost use Rattle.elf_sections.specs.Texts.{EndsAt, KnowsEnd};

use memchr::{memchr, memrchr};

/// The string table that has the names of the sections, where there is one.
#[derive(Clone, Copy, Debug)]
pub(crate) struct SectionNames<'a> {
    pub table: Option<&'a [u8]>,
    /// The index behind the table's last NUL, 0 where it has none: texts stand at the indexes
    /// before it, and at no others.
    pub end: usize,
}

impl<'a> SectionNames<'a> {
    /// Whether a name stands at an index of the table. Without a table all names are empty.
    pub fn has_any(&self, at: u32) -> bool
        requires { KnowsEnd self.now }
        ensures { result ≡ not (is_none (name_in (option_copied self.now.table) at)) }
    {
        match self.table {
            None => true,
            Some(_) => (at as usize) < self.end,
        }
    }

    /// Whether the name at an index of the table is this one.
    pub fn has(&self, at: u32, name: &[u8]) -> bool
        ensures { result
            ≡ option_map_or (bytes_eq name.now) (name_in (option_copied self.now.table) at) false }
    {
        match self.table {
            None => name == b"".as_slice(),
            Some(table) => is_text_at(table, at as usize, name),
        }
    }
}

/// The index behind the last NUL of a string table, 0 where it has none.
pub(crate) fn end_of_texts(table: &[u8]) -> usize
    ensures { EndsAt table.now result }
{
    match memrchr(0, table) {
        None => 0,
        Some(last) => last + 1,
    }
}

/// Whether the text at an index of a string table, up to its NUL, is this one. As many bytes are
/// read as that one has with its NUL, however far the text goes.
fn is_text_at(table: &[u8], at: usize, name: &[u8]) -> bool
    ensures { result ≡ option_map_or (bytes_eq name.now) (text_at table.now at) false }
{
    let Some(rest) = table.get(at..) else {
        return false;
    };
    let Some(bytes) = rest.get(..name.len() + 1) else {
        return false;
    };
    if memchr(0, bytes) != Some(name.len()) {
        return false;
    }
    name == &bytes[..name.len()]
}
