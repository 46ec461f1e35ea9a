// What the table of forms holds.
ghost use Rattle.std.specs.Prelude.{IsTrue};
ghost use Rattle.dwarf_forms.specs.Table.{HasFormsOfOtherFiles, HasReadForms, ascends};

use crate::table::FORMS;

/// The codes of `FORMS` ascend. Those of them that are read are all that are read, and the others
/// are those of the forms that lead into another file.
pub fn forms_ascend()
    ensures ascend { IsTrue (ascends FORMS.codes) }
    ensures read { HasReadForms FORMS.codes }
    ensures others { HasFormsOfOtherFiles FORMS.codes }
{}
