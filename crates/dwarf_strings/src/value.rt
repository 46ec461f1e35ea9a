ghost use Rattle.range_model.specs.Texts.{address_of, text_in, text_of};
ghost use Rattle.dwarf_forms.specs.Meaning.{meaning_of};
ghost use Rattle.dwarf_strings.specs.Meaning.{Gives, bases_of, bytes_of, sections_of};

use crate::section::{cursor_at, slot};
use crate::unit::{Bases, Texts};
use byte_view::Part;
use dwarf_forms::Value;
use refusal::Kind;

/// The text at an offset of a section.
fn text_at(section: Option<Part<'_>>, at: u64) -> Result<&[u8], Kind>
    ensures { Gives (λ text. text.now) result (text_in (bytes_of section.entry) at) }
{
    let section = section.ok_or(Kind::NoSection)?;
    let Some(mut cur) = cursor_at(section, u128::from(at)) else {
        return Err(Kind::PastSection);
    };
    match cur.cstr() {
        Ok(text) => Ok(text),
        Err(_) => Err(Kind::NoNul),
    }
}

/// The text that a value means, as a slice of the file.
///
/// # Errors
/// The first of these causes that holds: `BadClass` where the value is of no class that texts have;
/// for a text by index `NoBase`, `NoSection` and `PastSection` at `.debug_str_offsets`; then
/// `NoSection` where there is no `.debug_str` or `.debug_line_str`, `PastSection` where the text's
/// offset is above its length, and `NoNul` where no NUL ends the text in it.
///
/// Source: DWARF 5, sections 7.5.5, class `string`, and 7.26.
#[tactic(auto, unfolding(range_model::specs::Texts::text_of))]
pub fn text<'a>(value: Value<'a>, texts: &Texts<'a>, bases: &Bases) -> Result<&'a [u8], Kind>
    ensures { Gives (λ text. text.now) result
        (text_of (sections_of texts.now) (bases_of bases.now) (meaning_of value.entry)) }
{
    match value {
        Value::Text(run) => Ok(run),
        Value::StrAt(at) => text_at(texts.str, at),
        Value::LineStrAt(at) => text_at(texts.line_str, at),
        Value::StrIndex(index) => {
            let at = slot(bases.str_offsets, texts.str_offsets, bases.wide, index)?;
            text_at(texts.str, at)
        }
        _ => Err(Kind::BadClass),
    }
}

/// The address that a value means.
///
/// # Errors
/// The first of these causes that holds: `BadClass` where the value is of no class that addresses
/// have; for an address by index `NoBase`, `NoSection` and `PastSection` at `.debug_addr`.
///
/// Source: DWARF 5, sections 7.5.5, class `address`, and 7.27.
#[tactic(auto, unfolding(range_model::specs::Texts::address_of))]
pub fn address(value: Value<'_>, texts: &Texts<'_>, bases: &Bases) -> Result<u64, Kind>
    ensures { Gives (λ address. address) result
        (address_of (sections_of texts.now) (bases_of bases.now) (meaning_of value.entry)) }
{
    match value {
        Value::Addr(address) => Ok(address),
        Value::AddrIndex(index) => slot(bases.addr, texts.addr, true, index),
        _ => Err(Kind::BadClass),
    }
}
