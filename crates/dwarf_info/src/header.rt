// The header of a unit.
ghost use Rattle.std.specs.Prelude.{◌≡◌, ◌<◌, ◌≤◌, ⊤, length, IfOk, OnOk};
ghost use Rattle.std.specs.Option.{option_map};
ghost use Rattle.placed_view.specs.Reader.{Gives, cursor_behind, field, start_of};
ghost use Rattle.byte_view.specs.Part.{bytes_of_part};
ghost use Rattle.value_model.specs.Forms.{offset_size};
ghost use Rattle.unit_model.specs.Header.{abbrevs_at, address_size, header as header_told, header_4, header_5, unit_length, sized};

use byte_view::{Cur, Part};
use dwarf_forms::UnitShape;
use placed_view::{byte, field_u16, field_u32, field_u64};
use refusal::{Kind, Place, refuse_if};
use std::marker::Model;

/// What a header says of a unit that is read: its version, and the piece that begins with its
/// abbreviations.
#[derive(Debug, Drop)]
pub(crate) struct Header<'b> {
    pub version: u16,
    pub abbrevs: Part<'b>,
}

impl<'b> Model for Header<'b> {
    ghost use Rattle.unit_model.specs.Header.{Header};
    ghost use Rattle.placed_view.specs.Reader.{start_of};

    ghost Value = { Header };

    ghost view = { λ h. record { version = h.version; abbrevs = start_of h.abbrevs } };
}

/// The length that follows `at`, whether it is in 64 bits, for 64-bit DWARF, and the length.
#[tactic(auto, unfolding(unit_model::specs::Header::sized))]
fn read_size(cur: &mut Cur<'_>, at: usize) -> Result<(bool, u64), Place>
    ensures read { Gives (λ size. (size.0, size.1)) result cur.new (sized at cur.old) }
    ensures shorter { OnOk result (length cur.new.left < length cur.old.left) }
{
    let bad = Place::in_binary(at, Kind::BadUnitLength);
    let Ok(first) = field_u32(cur) else {
        return Err(bad);
    };
    if first == 0xffff_ffff {
        let Ok(size) = field_u64(cur) else {
            return Err(bad);
        };
        return Ok((true, size));
    }
    refuse_if(first >= 0xffff_fff0, bad)?;
    Ok((false, u64::from(first)))
}

/// Whether a unit is 64-bit DWARF, and how many bytes it has behind its length.
///
/// # Errors
/// `BadUnitLength` at the unit's start, where the length is a reserved value or passes the end.
///
/// Source: DWARF 5, sections 7.4 and 7.5.1.
#[tactic(auto, unfolding(unit_model::specs::Header::unit_length))]
pub(crate) fn read_length(cur: &mut Cur<'_>) -> Result<(bool, u64), Place>
    ensures read { Gives (λ size. (size.0, size.1)) result cur.new (unit_length cur.old) }
    ensures within { IfOk result (λ size. size.1 ≤ length cur.new.left) }
    ensures shorter { OnOk result (length cur.new.left < length cur.old.left) }
{
    let at = cur.at();
    let (wide, size) = read_size(cur, at)?;
    let passes_end = (cur.left() as u64) < size;
    refuse_if(passes_end, Place::in_binary(at, Kind::BadUnitLength))?;
    Ok((wide, size))
}

/// An offset of the unit's width.
fn read_offset(cur: &mut Cur<'_>, shape: UnitShape) -> Result<u64, Place>
    ensures { Gives (λ n. n) result cur.new (field (offset_size shape.wide) cur.old) }
{
    if shape.wide {
        field_u64(cur)
    } else {
        Ok(u64::from(field_u32(cur)?))
    }
}

/// A piece from an offset in it on.
#[tactic(auto, using(crate::proofs::PartLemmas::part_lemmas))]
fn part_from<'b>(part: Part<'b>, offset: usize) -> Part<'b>
    requires { offset ≤ length (bytes_of_part part) }
    ensures { start_of result ≡ cursor_behind offset (start_of part.entry) }
{
    Part {
        file: part.file,
        at: part.at + offset,
        len: part.len - offset,
    }
}

/// The piece that begins with the abbreviations.
#[tactic(auto, unfolding(unit_model::specs::Header::abbrevs_at))]
fn read_abbrevs_at<'b>(
    cur: &mut Cur<'_>,
    shape: UnitShape,
    abbrev: Option<Part<'b>>,
) -> Result<Part<'b>, Place>
    ensures { Gives start_of result cur.new
        (abbrevs_at shape.wide (option_map start_of abbrev.entry) cur.old) }
{
    let at = cur.at();
    let offset = read_offset(cur, shape)?;
    let Some(section) = abbrev else {
        return Err(Place::in_binary(at, Kind::NoSection));
    };
    let passes_end = (section.bytes().len() as u64) < offset;
    refuse_if(passes_end, Place::in_binary(at, Kind::PastSection))?;
    Ok(part_from(section, offset as usize))
}

/// The size of addresses, which has to be 8.
#[tactic(auto, unfolding(unit_model::specs::Header::address_size))]
fn read_address_size(cur: &mut Cur<'_>) -> Result<(), Place>
    ensures { Gives (λ _. tt) result cur.new (address_size cur.old) }
{
    let at = cur.at();
    let size = byte(cur)?;
    refuse_if(size != 8, Place::in_binary(at, Kind::BadAddressSize))
}

/// What stands in version 4 behind the version.
#[tactic(auto, unfolding(unit_model::specs::Header::header_4))]
fn read_header_4<'b>(
    cur: &mut Cur<'_>,
    shape: UnitShape,
    abbrev: Option<Part<'b>>,
) -> Result<Option<Header<'b>>, Place>
    ensures { Gives (λ h. h) result cur.new
        (header_4 shape.wide (option_map start_of abbrev.entry) cur.old) }
{
    let abbrevs = read_abbrevs_at(cur, shape, abbrev)?;
    read_address_size(cur)?;
    Ok(Some(Header {
        version: 4,
        abbrevs,
    }))
}

/// What stands in version 5 behind the version. Types other than `DW_UT_compile` and
/// `DW_UT_partial` are passed over.
#[tactic(auto, unfolding(unit_model::specs::Header::header_5, unit_model::specs::Header::header_5_behind))]
fn read_header_5<'b>(
    cur: &mut Cur<'_>,
    shape: UnitShape,
    abbrev: Option<Part<'b>>,
) -> Result<Option<Header<'b>>, Place>
    ensures { Gives (λ h. h) result cur.new
        (header_5 shape.wide (option_map start_of abbrev.entry) cur.old) }
{
    let kind = byte(cur)?;
    if kind != 1 && kind != 3 {
        return Ok(None);
    }
    read_address_size(cur)?;
    let abbrevs = read_abbrevs_at(cur, shape, abbrev)?;
    Ok(Some(Header {
        version: 5,
        abbrevs,
    }))
}

/// What a unit's header says behind its length, or nothing where the unit is passed over.
///
/// # Errors
/// `BadVersion`, `BadAddressSize`, `NoSection` or `PastSection` at the field, in the order in which
/// the fields stand in this version, and `Short` at the first that passes the unit's end.
///
/// Source: DWARF 5, section 7.5.1; DWARF 4, section 7.5.1.
#[tactic(auto, unfolding(unit_model::specs::Header::header))]
pub(crate) fn read_header<'b>(
    cur: &mut Cur<'_>,
    shape: UnitShape,
    abbrev: Option<Part<'b>>,
) -> Result<Option<Header<'b>>, Place>
    ensures { Gives (λ h. h) result cur.new
        (header_told shape.wide (option_map start_of abbrev.entry) cur.old) }
{
    let at = cur.at();
    let version = field_u16(cur)?;
    if version == 4 {
        return read_header_4(cur, shape, abbrev);
    }
    if version == 5 {
        return read_header_5(cur, shape, abbrev);
    }
    let is_other = version != 2 && version != 3;
    refuse_if(is_other, Place::in_binary(at, Kind::BadVersion))?;
    Ok(None)
}
