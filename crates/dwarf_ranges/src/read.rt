ghost use Rattle.std.specs.Prelude.{◌≡◌, ◌+◌, length};
ghost use Rattle.range_model.specs.Entries.{by_kind, coded_entry_at, entry_at, pair_entry_at};
ghost use Rattle.range_model.specs.Entries.{uleb as uleb_of, word as word_of};
ghost use Rattle.byte_view.specs.Reading.{field_at};
ghost use Rattle.dwarf_ranges.specs.Meaning.{GivesEntry, GivesNumber};

use crate::entry::ListEntry;
use byte_view::Cur;
use dwarf_forms::Value;
use placed_view::kind_of;
use refusal::Kind;

/// An unsigned LEB128 number.
#[tactic(auto, using(dwarf_forms::proofs::ReadLemmas::end_kept))]
fn uleb(cur: &mut Cur<'_>) -> Result<u64, Kind>
    ensures exact { GivesNumber result cur.new.left (uleb_of cur.old.left) }
    ensures end { cur.new.at + length cur.new.left ≡ cur.old.at + length cur.old.left }
{
    match cur.uleb() {
        Ok(number) => Ok(number),
        Err(fault) => Err(kind_of(fault)),
    }
}

/// A number of 8 bytes.
#[tactic(auto, using(dwarf_forms::proofs::ReadLemmas::end_kept))]
fn word(cur: &mut Cur<'_>) -> Result<u64, Kind>
    ensures exact { GivesNumber result cur.new.left (word_of cur.old.left) }
    ensures end { cur.new.at + length cur.new.left ≡ cur.old.at + length cur.old.left }
{
    match cur.u64() {
        Ok(number) => Ok(number),
        Err(fault) => Err(kind_of(fault)),
    }
}

/// The code of an entry of `.debug_rnglists`.
#[tactic(auto, using(dwarf_forms::proofs::ReadLemmas::end_kept))]
fn code(cur: &mut Cur<'_>) -> Result<u8, Kind>
    ensures exact { GivesNumber result cur.new.left (by_kind (field_at 1 cur.old.left)) }
    ensures end { cur.new.at + length cur.new.left ≡ cur.old.at + length cur.old.left }
{
    match cur.u8() {
        Ok(code) => Ok(code),
        Err(fault) => Err(kind_of(fault)),
    }
}

/// The entry of `.debug_rnglists` at the cursor, where the list does not end there.
///
/// Source: DWARF 5, section 7.25, table 7.30.
#[tactic(auto, unfolding(range_model::specs::Entries::coded_entry_at))]
fn read_coded<'a>(cur: &mut Cur<'a>) -> Result<Option<ListEntry<'a>>, Kind>
    ensures exact { GivesEntry result cur.new.left (coded_entry_at cur.old.left) }
    ensures end { cur.new.at + length cur.new.left ≡ cur.old.at + length cur.old.left }
{
    match code(cur)? {
        0 => Ok(None),
        1 => Ok(Some(ListEntry::SetsBase(Value::AddrIndex(uleb(cur)?)))),
        2 => {
            let start = Value::AddrIndex(uleb(cur)?);
            Ok(Some(ListEntry::Between(start, Value::AddrIndex(uleb(cur)?))))
        }
        3 => {
            let start = Value::AddrIndex(uleb(cur)?);
            Ok(Some(ListEntry::Along(start, uleb(cur)?)))
        }
        4 => {
            let start = uleb(cur)?;
            Ok(Some(ListEntry::FromBase(start, uleb(cur)?)))
        }
        5 => Ok(Some(ListEntry::SetsBase(Value::Addr(word(cur)?)))),
        6 => {
            let start = Value::Addr(word(cur)?);
            Ok(Some(ListEntry::Between(start, Value::Addr(word(cur)?))))
        }
        7 => {
            let start = Value::Addr(word(cur)?);
            Ok(Some(ListEntry::Along(start, uleb(cur)?)))
        }
        _ => Err(Kind::BadRangeEntry),
    }
}

/// The entry of `.debug_ranges` at the cursor, where the list does not end there.
///
/// Source: DWARF 4, section 2.17.3.
#[tactic(auto, unfolding(range_model::specs::Entries::pair_entry_at))]
fn read_pair<'a>(cur: &mut Cur<'a>) -> Result<Option<ListEntry<'a>>, Kind>
    ensures exact { GivesEntry result cur.new.left (pair_entry_at cur.old.left) }
    ensures end { cur.new.at + length cur.new.left ≡ cur.old.at + length cur.old.left }
{
    let first = word(cur)?;
    let second = word(cur)?;
    if first == 0 && second == 0 {
        Ok(None)
    } else if first == u64::MAX {
        Ok(Some(ListEntry::SetsBase(Value::Addr(second))))
    } else {
        Ok(Some(ListEntry::FromBase(first, second)))
    }
}

/// The entry at the cursor in either section, where the list does not end there.
pub(crate) fn read_entry<'a>(cur: &mut Cur<'a>, pairs: bool) -> Result<Option<ListEntry<'a>>, Kind>
    ensures exact { GivesEntry result cur.new.left (entry_at pairs cur.old.left) }
    ensures end { cur.new.at + length cur.new.left ≡ cur.old.at + length cur.old.left }
{
    if pairs {
        read_pair(cur)
    } else {
        read_coded(cur)
    }
}
