ghost use Rattle.std.specs.Prelude.{[], ◌∷◌, ⊤};
ghost use Rattle.std.specs.List.{flat_map};
ghost use Rattle.refusal.specs.Place.{Judges, first_bad};
ghost use Rattle.elf_model.specs.Sections.{sections};
ghost use Rattle.elf_model.specs.Items.{items_of};
ghost use Rattle.elf_sections.specs.Tables.{IsSectionTable, AreNames, judged};

use crate::names::SectionNames;
use crate::section_header::SectionHeader;
use crate::section_table::SectionTable;
use refusal::{Kind, Place, refuse_if};

/// Judges each section in the order of the headers.
pub(crate) fn judge_sections(
    table: &SectionTable<'_>,
    file: &[u8],
    names: &SectionNames<'_>,
) -> Result<(), Place>
    requires table { IsSectionTable file.now table.now }
    requires names { AreNames file.now names.now }
    ensures { Judges (first_bad (flat_map (items_of file.now) (sections file.now))) result
        (λ _. ⊤) }
{
    for header in table.headers() {
        judge_section(&header, file, names)?;
    }
    Ok(())
}

/// Judges the extent and the name that a header gives, where it describes a section.
fn judge_section(header: &SectionHeader, file: &[u8], names: &SectionNames<'_>) -> Result<(), Place>
    requires { AreNames file.now names.now }
    ensures { Judges (first_bad (judged file.now (header.now ∷ []))) result (λ _. ⊤) }
{
    if header.is_unused() {
        return Ok(());
    }
    header.judge_extent(file)?;
    let is_bad = !names.has_any(header.name);
    refuse_if(is_bad, Place::in_binary(header.at, Kind::NameBad))
}
