// Attributes in memory, in 16 bytes each.
ghost use Rattle.std.specs.Prelude.{◌≡◌, [], get_or, IfOk, Some};
ghost use Rattle.dwarf_forms.specs.Meaning.{meaning_of};
ghost use Rattle.dwarf_info.specs.Packed.{Extends, IsKeptAs, IsPackedAs, by_number, found_of, texts_of, value_of as value_told};

use crate::numbers::{in_16, in_32};
use crate::rows::Found;
use dwarf_forms::Value;
use refusal::NoMemory;

/// The class of a value that a wanted attribute can have.
#[derive(Clone, Copy, Debug)]
pub(crate) enum ValueClass {
    Addr,
    Const,
    Text,
    StrAt,
    LineStrAt,
    StrIndex,
    AddrIndex,
    RefInfo,
    Ref,
    Sig,
    Offset,
    RangeIndex,
}

/// An attribute in memory. Its number is its value, or of a text that stands in the entry the place
/// of that text among all such texts.
#[derive(Clone, Copy, Debug)]
pub(crate) struct Packed {
    pub name: u16,
    pub class: ValueClass,
    pub at: u32,
    pub number: u64,
}

// A large program has millions of attributes.
const _: () = prove!(size_of::<Packed>() == 16);

/// The class and the number of a value that a number tells.
///
/// # Errors
/// `NoMemory` for a value of another class. Of these no wanted attribute has a block, a flag or a
/// list of locations, and a text is kept by its place.
fn numbered(value: Value<'_>) -> Result<(ValueClass, u64), NoMemory>
    ensures { IfOk result (λ kept. by_number kept.0 kept.1 ≡ Some (meaning_of value.entry)) }
{
    match value {
        Value::Addr(number) => Ok((ValueClass::Addr, number)),
        Value::Const(number) => Ok((ValueClass::Const, number)),
        Value::StrAt(number) => Ok((ValueClass::StrAt, number)),
        Value::LineStrAt(number) => Ok((ValueClass::LineStrAt, number)),
        Value::StrIndex(number) => Ok((ValueClass::StrIndex, number)),
        Value::AddrIndex(number) => Ok((ValueClass::AddrIndex, number)),
        Value::RefInfo(number) => Ok((ValueClass::RefInfo, number)),
        Value::Ref(number) => Ok((ValueClass::Ref, number)),
        Value::Sig(number) => Ok((ValueClass::Sig, number)),
        Value::Offset(number) => Ok((ValueClass::Offset, number)),
        Value::RangeIndex(number) => Ok((ValueClass::RangeIndex, number)),
        Value::Text(_) | Value::Block(_) | Value::Flag(_) | Value::LocIndex(_) => Err(NoMemory),
    }
}

/// The class and the number that a value is kept as. A text is put behind the others.
///
/// # Errors
/// `NoMemory` also for a block, a flag and a list of locations, which no wanted attribute has.
#[tactic(auto, using(crate::proofs::PackedLemmas::keep_lemmas))]
fn keep<'a>(value: Value<'a>, texts: &mut Vec<&'a [u8]>) -> Result<(ValueClass, u64), NoMemory>
    ensures extends { Extends (texts_of texts.old.items) (texts_of texts.new.items) }
    ensures kept { IfOk result (λ kept.
        IsKeptAs (texts_of texts.new.items) (meaning_of value.entry) kept.0 kept.1) }
{
    match value {
        Value::Text(text) => {
            let place = texts.len() as u64;
            texts.push(text)?;
            Ok((ValueClass::Text, place))
        }
        _ => numbered(value),
    }
}

/// An attribute as it is kept.
///
/// # Errors
/// `NoMemory` also where its name has more than 16 bits or its offset more than 32. No wanted name
/// has, and no binary of at most 2^30 bytes has such an offset.
#[tactic(auto, using(crate::proofs::PackedLemmas::pack_lemmas))]
pub(crate) fn pack<'a>(more: Found<'a>, texts: &mut Vec<&'a [u8]>) -> Result<Packed, NoMemory>
    ensures extends { Extends (texts_of texts.old.items) (texts_of texts.new.items) }
    ensures packed { IfOk result (IsPackedAs (texts_of texts.new.items) more.entry) }
{
    let name = in_16(more.name)?;
    let at = in_32(more.at)?;
    let (class, number) = keep(more.value, texts)?;
    Ok(Packed {
        name,
        class,
        at,
        number,
    })
}

/// The text of a place among all, which is empty where there is none.
fn text_at<'a>(texts: &[&'a [u8]], place: u64) -> &'a [u8]
    ensures { result.now ≡ get_or (texts_of texts.now) place [] }
{
    match texts.get(place as usize) {
        Some(text) => text,
        None => &[],
    }
}

/// The value of a class and a number.
fn value_of<'a>(class: ValueClass, number: u64, texts: &[&'a [u8]]) -> Value<'a>
    ensures { meaning_of result ≡ value_told (texts_of texts.now) class number }
{
    match class {
        ValueClass::Addr => Value::Addr(number),
        ValueClass::Const => Value::Const(number),
        ValueClass::Text => Value::Text(text_at(texts, number)),
        ValueClass::StrAt => Value::StrAt(number),
        ValueClass::LineStrAt => Value::LineStrAt(number),
        ValueClass::StrIndex => Value::StrIndex(number),
        ValueClass::AddrIndex => Value::AddrIndex(number),
        ValueClass::RefInfo => Value::RefInfo(number),
        ValueClass::Ref => Value::Ref(number),
        ValueClass::Sig => Value::Sig(number),
        ValueClass::Offset => Value::Offset(number),
        ValueClass::RangeIndex => Value::RangeIndex(number),
    }
}

/// The attribute that a packed one stands for.
pub(crate) fn unpack<'a>(packed: Packed, texts: &[&'a [u8]]) -> Found<'a>
    ensures { result ≡ found_of (texts_of texts.now) packed }
{
    Found {
        name: packed.name as u64,
        at: packed.at as u64,
        value: value_of(packed.class, packed.number, texts),
    }
}
