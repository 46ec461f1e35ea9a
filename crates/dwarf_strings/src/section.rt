ghost use Rattle.std.specs.Prelude.{◌≡◌, ◌+◌, ◌*◌, ◌<◌, ◌≤◌, length, drop, MatchOption};
ghost use Rattle.byte_view.specs.Part.{bytes_of_part};
ghost use Rattle.byte_view.specs.Reading.{Gives, field_at};
ghost use Rattle.range_model.specs.Texts.{slot};
ghost use Rattle.value_model.specs.Forms.{offset_size};
ghost use Rattle.dwarf_strings.specs.Meaning.{IsAt, Gives as GivesValue, bytes_of};

use byte_view::{Cur, Part, ViewFault};
use refusal::Kind;

/// A cursor at an offset in a section, where the offset is not past it.
pub fn cursor_at<'a>(section: Part<'a>, at: u128) -> Option<Cur<'a>>
    ensures { MatchOption result (length (bytes_of_part section.entry) < at)
        (IsAt section.entry at) }
{
    let mut cur = Cur::new(section);
    if at > cur.left() as u128 {
        return None;
    }
    match cur.take(at as u64) {
        Ok(_) => Some(cur),
        Err(_) => None,
    }
}

/// The place of an index in a table of numbers of 8 bytes, or of 4, that begins at the base.
fn place_of(base: u64, index: u64, wide: bool) -> u128
    ensures { result ≡ base + index * offset_size wide }
{
    let index = u128::from(index);
    u128::from(base) + if wide { index * 8 } else { index * 4 }
}

/// A number of 8 bytes, or of 4.
fn read_number(cur: &mut Cur<'_>, wide: bool) -> Result<u64, ViewFault>
    ensures { Gives (λ n. n) result cur.new.left (field_at (offset_size wide) cur.old.left) }
{
    if wide {
        cur.u64()
    } else {
        Ok(u64::from(cur.u32()?))
    }
}

/// The number at an index of a section's table of offsets or addresses, which begins at the base.
/// It has 8 bytes, or 4 where it is not wide.
///
/// # Errors
/// `NoBase` where the unit has no base, `NoSection` where the file has no such section, and
/// `PastSection` where the number does not lie whole in the section.
///
/// Source: DWARF 5, sections 7.26 to 7.28.
pub fn slot(
    base: Option<u64>,
    section: Option<Part<'_>>,
    wide: bool,
    index: u64,
) -> Result<u64, Kind>
    ensures { GivesValue (λ n. n) result
        (slot base (bytes_of section.entry) (offset_size wide) index) }
{
    let base = base.ok_or(Kind::NoBase)?;
    let section = section.ok_or(Kind::NoSection)?;
    let Some(mut cur) = cursor_at(section, place_of(base, index, wide)) else {
        return Err(Kind::PastSection);
    };
    match read_number(&mut cur, wide) {
        Ok(number) => Ok(number),
        Err(_) => Err(Kind::PastSection),
    }
}
