ghost use Rattle.std.specs.Prelude.{◌≡◌};
ghost use Rattle.dwarf_forms.specs.declared.value.FormFault.TheVariants.{View as of_view};

use byte_view::ViewFault;
use thiserror::Error;

/// The value of an attribute, or of a field of a line program's header, by its class.
///
/// Bytes and texts are slices of the file. Offsets and indexes are as they stand; what they lead to
/// depends on the attribute and the unit.
///
/// Source: DWARF 5, section 7.5.5.
#[derive(Clone, Copy, Debug, PartialEq, Eq)]
pub enum Value<'a> {
    /// An address.
    Addr(u64),
    /// Bytes, of class block or exprloc.
    Block(&'a [u8]),
    /// A constant. A negative one stands in two's complement.
    Const(u64),
    /// A text that stands in the entry, without its NUL.
    Text(&'a [u8]),
    /// A flag.
    Flag(bool),
    /// An offset into `.debug_str`, where a text stands.
    StrAt(u64),
    /// An offset into `.debug_line_str`, where a text stands.
    LineStrAt(u64),
    /// A text, by its index in the unit's part of `.debug_str_offsets`.
    StrIndex(u64),
    /// An address, by its index in the unit's part of `.debug_addr`.
    AddrIndex(u64),
    /// An entry, by its offset in `.debug_info`.
    RefInfo(u64),
    /// An entry, by its offset in the unit.
    Ref(u64),
    /// A type unit, by its signature.
    Sig(u64),
    /// An offset into the section that the attribute names.
    Offset(u64),
    /// A list of locations, by its index.
    LocIndex(u64),
    /// A range list, by its index in the unit's part of `.debug_rnglists`.
    RangeIndex(u64),
}

/// What the size of a unit's offsets depends on.
///
/// Source: DWARF 5, section 7.4.
#[derive(Clone, Copy, Debug, PartialEq, Eq)]
pub struct UnitShape {
    /// The unit is in 64-bit DWARF: its offsets have 8 bytes. Else they have 4.
    pub wide: bool,
}

/// Why a value was not read. The cursor then stands where it stood.
#[derive(Clone, Copy, Debug, PartialEq, Eq, Error)]
pub enum FormFault {
    /// The code is of no form that is read there.
    #[error("a form that is not read")]
    BadForm,
    /// `DW_FORM_indirect` leads to `DW_FORM_indirect`.
    #[error("an indirect form leads to an indirect form")]
    IndirectTwice,
    /// The value's bytes end too soon, or a number in them does not fit.
    #[error("{0}")]
    View(ViewFault),
}

impl From<ViewFault> for FormFault {
    ghost from_gives = { λ fault form_fault. form_fault ≡ of_view fault };

    fn from(fault: ViewFault) -> Self {
        FormFault::View(fault)
    }
}
