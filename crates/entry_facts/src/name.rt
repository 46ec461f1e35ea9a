// The name that an attribute says.
ghost use Rattle.std.specs.Prelude.{◌<◌, ◌-◌, ◌^◌, length, Some};
ghost use Rattle.std.specs.Option.{option_map};
ghost use Rattle.dwarf_strings.specs.Meaning.{Gives, sections_of};
ghost use Rattle.tree_model.specs.Origin.{name_said as name_told};
ghost use Rattle.entry_facts.specs.Meaning.{Extends, Numbers, held_of};
ghost use Rattle.entry_facts.specs.Texts.{GivesNumber};

use crate::bases::bases_of;
use crate::findings::Held;
use crate::info::Info;
use dwarf_strings::text;
use key_types::{NameId, Names, is_name};
use refusal::{NoMemory, Place, Stop};

/// The name that an attribute says, with the bases of the unit in which it stands. A text that can
/// be no name says none.
///
/// # Errors
/// At the value, the cause that `dwarf_strings::text` answers.
fn name_said<'a>(info: &Info<'a, '_>, held: Held<'a>) -> Result<Option<&'a [u8]>, Place>
    ensures { Gives (option_map (λ name. name.now)) result (name_told (sections_of
        info.now.texts.now) info.now.units.now (Some (held_of held.entry))) }
{
    match text(held.value, info.texts, &bases_of(info.units, held.unit)) {
        Ok(text) if is_name(text) => Ok(Some(text)),
        Ok(_) => Ok(None),
        Err(kind) => Err(Place::in_binary(held.at as usize, kind)),
    }
}

/// The number of a name, if there is one.
fn number_of<'a>(names: &mut Names<'a>, name: Option<&'a [u8]>) -> Result<Option<NameId>, NoMemory>
    requires { length names.old < 2 ^ 32 - 1 }
    ensures number { Numbers names.new (option_map (λ name. name.now) name.entry) result }
    ensures names { Extends names.old names.new }
{
    match name {
        Some(name) => Ok(Some(names.add(name)?)),
        None => Ok(None),
    }
}

/// The number of the name that an attribute says, if it says one.
///
/// # Errors
/// Those of `name_said`, and `NoMemory` where the names get no room.
pub(crate) fn numbered_name<'a>(
    info: &Info<'a, '_>,
    held: Held<'a>,
    names: &mut Names<'a>,
) -> Result<Option<NameId>, Stop>
    requires { length names.old < 2 ^ 32 - 1 }
    ensures told { GivesNumber names.new result (name_told (sections_of info.now.texts.now)
        info.now.units.now (Some (held_of held.entry))) }
    ensures names { Extends names.old names.new }
{
    let name = name_said(info, held)?;
    Ok(number_of(names, name)?)
}
