// The section `.debug_abbrev`.
ghost use Rattle.std.specs.Prelude.{◌≡◌, ◌++◌, OnOk};
ghost use Rattle.case_model.specs.Abbrev.{abstract_kind, debug_abbrev, function_kind, inlined_kind, unit_kind};

use crate::dwarf::*;
use refusal::NoMemory;

/// The codes of the four kinds of entries.
pub const UNIT: u8 = 1;

pub const ABSTRACT: u8 = 2;

pub const FUNCTION: u8 = 3;

pub const INLINED: u8 = 4;

/// The attributes of a function with their forms, up to the two zeros that end them.
const FUNCTION_ATTRIBUTES: [u8; 10] = [
    DW_AT_NAME,
    DW_FORM_STRING,
    DW_AT_DECL_LINE,
    DW_FORM_DATA2,
    DW_AT_LOW_PC,
    DW_FORM_ADDR,
    DW_AT_HIGH_PC,
    DW_FORM_DATA4,
    0,
    0,
];

/// The same of an inlined call.
const INLINED_ATTRIBUTES: [u8; 13] = [
    DW_AT_ABSTRACT_ORIGIN,
    DW_FORM_REF4,
    DW_AT_LOW_PC,
    DW_FORM_ADDR,
    DW_AT_HIGH_PC,
    DW_FORM_DATA4,
    DW_AT_CALL_LINE,
    DW_FORM_DATA2,
    DW_AT_GNU_DISCRIMINATOR[0],
    DW_AT_GNU_DISCRIMINATOR[1],
    DW_FORM_DATA1,
    0,
    0,
];

/// How many bytes the section has.
pub const ABBREV_SIZE: u64 = 46;

/// Appends the section: the four abbreviations and the zero that ends them.
#[tactic(auto, unfolding(case_model::specs::Abbrev::debug_abbrev))]
pub fn push_abbrev(out: &mut Vec<u8>) -> Result<(), NoMemory>
    ensures { OnOk result (out.new.items ≡ out.old.items ++ debug_abbrev) }
{
    push_unit_kind(out)?;
    push_abstract_kind(out)?;
    push_function_kind(out)?;
    push_inlined_kind(out)?;
    out.push(0)?;
    Ok(())
}

/// The unit has a line program.
#[tactic(auto, unfolding(case_model::specs::Abbrev::unit_kind))]
fn push_unit_kind(out: &mut Vec<u8>) -> Result<(), NoMemory>
    ensures { OnOk result (out.new.items ≡ out.old.items ++ unit_kind) }
{
    out.extend_from_slice(&[UNIT, DW_TAG_COMPILE_UNIT, DW_CHILDREN_YES])?;
    out.extend_from_slice(&[DW_AT_STMT_LIST, DW_FORM_SEC_OFFSET, 0, 0])?;
    Ok(())
}

/// The function that is inlined has a name and a line.
#[tactic(auto, unfolding(case_model::specs::Abbrev::abstract_kind))]
fn push_abstract_kind(out: &mut Vec<u8>) -> Result<(), NoMemory>
    ensures { OnOk result (out.new.items ≡ out.old.items ++ abstract_kind) }
{
    out.extend_from_slice(&[ABSTRACT, DW_TAG_SUBPROGRAM, DW_CHILDREN_NO])?;
    out.extend_from_slice(&[DW_AT_NAME, DW_FORM_STRING])?;
    out.extend_from_slice(&[DW_AT_DECL_LINE, DW_FORM_DATA1, 0, 0])?;
    Ok(())
}

/// A function has a name, a line, an address and a size, and entries below it.
#[tactic(auto, unfolding(case_model::specs::Abbrev::function_kind))]
fn push_function_kind(out: &mut Vec<u8>) -> Result<(), NoMemory>
    ensures { OnOk result (out.new.items ≡ out.old.items ++ function_kind) }
{
    out.extend_from_slice(&[FUNCTION, DW_TAG_SUBPROGRAM, DW_CHILDREN_YES])?;
    out.extend_from_slice(&FUNCTION_ATTRIBUTES)?;
    Ok(())
}

/// An inlined call says of which function, at which address, how large, and from where it is made.
#[tactic(auto, unfolding(case_model::specs::Abbrev::inlined_kind))]
fn push_inlined_kind(out: &mut Vec<u8>) -> Result<(), NoMemory>
    ensures { OnOk result (out.new.items ≡ out.old.items ++ inlined_kind) }
{
    out.extend_from_slice(&[INLINED, DW_TAG_INLINED_SUBROUTINE, DW_CHILDREN_NO])?;
    out.extend_from_slice(&INLINED_ATTRIBUTES)?;
    Ok(())
}
