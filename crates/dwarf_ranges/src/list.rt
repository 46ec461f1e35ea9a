ghost use Rattle.range_model.specs.Lists.{list_in as list_in_of};
ghost use Rattle.range_model.specs.Lists.{list_by_version as list_by_version_of};
ghost use Rattle.range_model.specs.Lists.{list_of as list_of_value};
ghost use Rattle.dwarf_forms.specs.Meaning.{meaning_of};
ghost use Rattle.dwarf_strings.specs.Meaning.{bases_of};
ghost use Rattle.dwarf_ranges.specs.Meaning.{LeadsTo, piece_of, range_sections_of};

use byte_view::{Cur, Part};
use dwarf_forms::Value;
use dwarf_strings::{Bases, Texts, cursor_at, slot};
use refusal::Kind;

/// The sections that range lists and their addresses stand in, where the file has them.
#[derive(Clone, Copy, Debug)]
pub struct RangeParts<'a> {
    pub ranges: Option<Part<'a>>,
    pub rnglists: Option<Part<'a>>,
    pub texts: Texts<'a>,
}

/// A range list: a cursor at its first entry, and whether its entries are pairs.
#[derive(Debug, Drop)]
pub struct RangeList<'a> {
    pub pairs: bool,
    pub cur: Cur<'a>,
}

/// The list at an offset of a section.
fn list_in<'a>(pairs: bool, section: Option<Part<'a>>, at: u128) -> Result<RangeList<'a>, Kind>
    ensures { LeadsTo result (list_in_of pairs (piece_of section.entry) at) }
{
    let section = section.ok_or(Kind::NoSection)?;
    match cursor_at(section, at) {
        Some(cur) => Ok(RangeList { pairs, cur }),
        None => Err(Kind::PastSection),
    }
}

/// The list at an offset of the section that the version has for range lists.
fn list_by_version<'a>(version: u16, parts: &RangeParts<'a>, at: u64) -> Result<RangeList<'a>, Kind>
    ensures { LeadsTo result
        (list_by_version_of version (range_sections_of parts.now) at) }
{
    if version < 5 {
        list_in(true, parts.ranges, u128::from(at))
    } else {
        list_in(false, parts.rnglists, u128::from(at))
    }
}

/// The list that a value of `DW_AT_ranges` leads to.
///
/// # Errors
/// `BadClass` where the value is of no class that the attribute has, then `NoBase`, `NoSection` and
/// `PastSection` on the way to the list.
///
/// Source: DWARF 5, section 7.28.
pub fn list_of<'a>(
    value: Value<'a>,
    version: u16,
    parts: &RangeParts<'a>,
    bases: &Bases,
) -> Result<RangeList<'a>, Kind>
    ensures { LeadsTo result
        (list_of_value version (range_sections_of parts.now) (bases_of bases.now)
        (meaning_of value.entry)) }
{
    match value {
        Value::Offset(at) => list_by_version(version, parts, at),
        Value::Const(at) => list_by_version(version, parts, at),
        Value::RangeIndex(index) => {
            let at = slot(bases.rnglists, parts.rnglists, bases.wide, index)?;
            let base = bases.rnglists.unwrap_or(0);
            list_in(false, parts.rnglists, u128::from(base) + u128::from(at))
        }
        _ => Err(Kind::BadClass),
    }
}
