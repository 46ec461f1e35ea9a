// The reads of a cursor, each with its fault as a place.
ghost use Rattle.std.specs.Prelude.{◌≡◌, ◌<◌, length, OnOk};
ghost use Rattle.refusal.specs.Place.{in_binary};
ghost use Rattle.placed_view.specs.Reader.{Gives, field, kind_of as kind_told, sleb as signed_number, uleb as unsigned_number};

use byte_view::{Cur, ViewFault};
use refusal::{Kind, Place};

/// The kind that a cursor's fault is told by.
pub fn kind_of(fault: ViewFault) -> Kind
    ensures { result ≡ kind_told fault }
{
    match fault {
        ViewFault::Short => Kind::Short,
        ViewFault::LebTooLong => Kind::LebTooLong,
        ViewFault::NoNul => Kind::NoNul,
    }
}

/// The place of a fault at an offset in the binary.
#[inline]
pub fn place_of(fault: ViewFault, at: usize) -> Place
    ensures { result ≡ in_binary at (kind_told fault) }
{
    Place::in_binary(at, kind_of(fault))
}

/// The next byte.
///
/// # Errors
/// `Short` at the cursor, where none is left.
#[inline]
pub fn byte(cur: &mut Cur<'_>) -> Result<u8, Place>
    ensures read { Gives (λ n. n) result cur.new (field 1 cur.old) }
    ensures shorter { OnOk result (length cur.new.left < length cur.old.left) }
{
    let at = cur.at();
    match cur.u8() {
        Ok(n) => Ok(n),
        Err(fault) => Err(place_of(fault, at)),
    }
}

/// The next field of 2 bytes, the lowest first.
///
/// # Errors
/// `Short` at the cursor, where the field passes the end.
#[inline]
pub fn field_u16(cur: &mut Cur<'_>) -> Result<u16, Place>
    ensures read { Gives (λ n. n) result cur.new (field 2 cur.old) }
    ensures shorter { OnOk result (length cur.new.left < length cur.old.left) }
{
    let at = cur.at();
    match cur.u16() {
        Ok(n) => Ok(n),
        Err(fault) => Err(place_of(fault, at)),
    }
}

/// The next field of 4 bytes, the lowest first.
///
/// # Errors
/// `Short` at the cursor, where the field passes the end.
#[inline]
pub fn field_u32(cur: &mut Cur<'_>) -> Result<u32, Place>
    ensures read { Gives (λ n. n) result cur.new (field 4 cur.old) }
    ensures shorter { OnOk result (length cur.new.left < length cur.old.left) }
{
    let at = cur.at();
    match cur.u32() {
        Ok(n) => Ok(n),
        Err(fault) => Err(place_of(fault, at)),
    }
}

/// The next field of 8 bytes, the lowest first.
///
/// # Errors
/// `Short` at the cursor, where the field passes the end.
#[inline]
pub fn field_u64(cur: &mut Cur<'_>) -> Result<u64, Place>
    ensures read { Gives (λ n. n) result cur.new (field 8 cur.old) }
    ensures shorter { OnOk result (length cur.new.left < length cur.old.left) }
{
    let at = cur.at();
    match cur.u64() {
        Ok(n) => Ok(n),
        Err(fault) => Err(place_of(fault, at)),
    }
}

/// The next unsigned LEB128 number.
///
/// # Errors
/// `LebTooLong` or `Short` at the cursor, where no number that fits 64 bits is spelled whole.
///
/// Source: DWARF 5, section 7.6.
#[inline]
pub fn uleb(cur: &mut Cur<'_>) -> Result<u64, Place>
    ensures read { Gives (λ n. n) result cur.new (unsigned_number cur.old) }
    ensures shorter { OnOk result (length cur.new.left < length cur.old.left) }
{
    let at = cur.at();
    match cur.uleb() {
        Ok(n) => Ok(n),
        Err(fault) => Err(place_of(fault, at)),
    }
}

/// The next signed LEB128 number.
///
/// # Errors
/// `LebTooLong` or `Short` at the cursor, where no number that fits 64 bits is spelled whole.
///
/// Source: DWARF 5, section 7.6.
#[inline]
pub fn sleb(cur: &mut Cur<'_>) -> Result<i64, Place>
    ensures read { Gives (λ n. n) result cur.new (signed_number cur.old) }
    ensures shorter { OnOk result (length cur.new.left < length cur.old.left) }
{
    let at = cur.at();
    match cur.sleb() {
        Ok(n) => Ok(n),
        Err(fault) => Err(place_of(fault, at)),
    }
}
