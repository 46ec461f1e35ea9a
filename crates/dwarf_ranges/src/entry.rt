use dwarf_forms::Value;

/// An entry of a range list but the one that ends it. An address stands in the entry, or goes by an
/// index.
///
/// Source: DWARF 5, section 2.17.3.
#[derive(Clone, Copy, Debug)]
pub(crate) enum ListEntry<'a> {
    /// From here on this address is the base.
    SetsBase(Value<'a>),
    /// A range from the first address up to the second.
    Between(Value<'a>, Value<'a>),
    /// A range from this address on, of this length.
    Along(Value<'a>, u64),
    /// A range between two numbers that are counted from the base.
    FromBase(u64, u64),
}
