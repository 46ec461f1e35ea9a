// The attributes that are wanted, and the classes of their values.
ghost use Rattle.std.specs.Prelude.{◌≡◌};
ghost use Rattle.unit_model.specs.Wanted.{accepts as accepts_told, has_wanted as has_wanted_told, use_of as use_told, wanted as wanted_told};
ghost use Rattle.unit_model.specs.Values.{is_unused as is_unused_told};
ghost use Rattle.dwarf_forms.specs.Meaning.{meaning_of};
ghost use Rattle.dwarf_info.specs.Wanted.{purpose_of};

use crate::constants::{
    DW_AT_ABSTRACT_ORIGIN, DW_AT_ADDR_BASE, DW_AT_CALL_LINE, DW_AT_DECL_LINE,
    DW_AT_GNU_DISCRIMINATOR, DW_AT_HIGH_PC, DW_AT_LINKAGE_NAME, DW_AT_LOW_PC,
    DW_AT_MIPS_LINKAGE_NAME, DW_AT_NAME, DW_AT_RANGES, DW_AT_RNGLISTS_BASE, DW_AT_SPECIFICATION,
    DW_AT_STMT_LIST, DW_AT_STR_OFFSETS_BASE, DW_TAG_COMPILE_UNIT, DW_TAG_INLINED_SUBROUTINE,
    DW_TAG_PARTIAL_UNIT, DW_TAG_SUBPROGRAM,
};
use dwarf_forms::Value;

/// What an attribute is wanted for.
#[derive(Clone, Copy, Debug, PartialEq, Eq)]
pub(crate) enum Use {
    /// A text.
    Text,
    /// A place in a section.
    Place,
    /// An address.
    Address,
    /// The end of a range, also as its size.
    End,
    /// Another entry.
    Entry,
    /// A number.
    Number,
    /// A range list.
    Ranges,
    /// Not wanted.
    Unused,
}

/// What the attribute of a name is wanted for.
fn use_of(name: u64) -> Use
    ensures { purpose_of result ≡ use_told name }
{
    match name {
        DW_AT_NAME | DW_AT_LINKAGE_NAME | DW_AT_MIPS_LINKAGE_NAME => Use::Text,
        DW_AT_STMT_LIST | DW_AT_STR_OFFSETS_BASE | DW_AT_ADDR_BASE | DW_AT_RNGLISTS_BASE => {
            Use::Place
        }
        DW_AT_LOW_PC => Use::Address,
        DW_AT_HIGH_PC => Use::End,
        DW_AT_ABSTRACT_ORIGIN | DW_AT_SPECIFICATION => Use::Entry,
        DW_AT_DECL_LINE | DW_AT_CALL_LINE | DW_AT_GNU_DISCRIMINATOR => Use::Number,
        DW_AT_RANGES => Use::Ranges,
        _ => Use::Unused,
    }
}

/// Whether attributes of entries with this tag are wanted.
fn has_wanted(tag: u64) -> bool
    ensures { result ≡ has_wanted_told tag }
{
    matches!(
        tag,
        DW_TAG_COMPILE_UNIT | DW_TAG_PARTIAL_UNIT | DW_TAG_SUBPROGRAM | DW_TAG_INLINED_SUBROUTINE
    )
}

/// What an attribute of an entry with a tag is wanted for.
#[tactic(auto, unfolding(unit_model::specs::Wanted::wanted))]
pub(crate) fn wanted(tag: u64, name: u64) -> Use
    ensures { purpose_of result ≡ wanted_told tag name }
{
    if has_wanted(tag) {
        use_of(name)
    } else {
        Use::Unused
    }
}

/// Whether an attribute is not wanted.
pub(crate) fn is_unused(purpose: Use) -> bool
    ensures { result ≡ is_unused_told (purpose_of purpose) }
{
    matches!(purpose, Use::Unused)
}

/// Whether a value is of a class that an attribute can have, by what it is wanted for.
pub(crate) fn accepts(wanted: Use, value: Value<'_>) -> bool
    ensures { result ≡ accepts_told (purpose_of wanted) (meaning_of value.entry) }
{
    match wanted {
        Use::Text => is_text(value),
        Use::Place => matches!(value, Value::Offset(_) | Value::Const(_)),
        Use::Address => matches!(value, Value::Addr(_) | Value::AddrIndex(_)),
        Use::End => matches!(
            value,
            Value::Addr(_) | Value::AddrIndex(_) | Value::Const(_)
        ),
        Use::Entry => matches!(value, Value::Ref(_) | Value::RefInfo(_) | Value::Sig(_)),
        Use::Number => matches!(value, Value::Const(_)),
        Use::Ranges => is_ranges(value),
        Use::Unused => true,
    }
}

/// Whether a value leads to a text.
fn is_text(value: Value<'_>) -> bool
    ensures { result ≡ accepts_told (purpose_of Use.Text) (meaning_of value.entry) }
{
    matches!(
        value,
        Value::Text(_) | Value::StrAt(_) | Value::LineStrAt(_) | Value::StrIndex(_)
    )
}

/// Whether a value leads to a range list.
fn is_ranges(value: Value<'_>) -> bool
    ensures { result ≡ accepts_told (purpose_of Use.Ranges) (meaning_of value.entry) }
{
    matches!(
        value,
        Value::Offset(_) | Value::Const(_) | Value::RangeIndex(_)
    )
}
