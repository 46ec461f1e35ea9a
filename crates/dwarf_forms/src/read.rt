ghost use Rattle.std.specs.Prelude.{◌≡◌, ◌+◌, length, IfOk, OnErr};
ghost use Rattle.byte_view.specs.Reading.{Gives, field_at, uleb_at};
ghost use Rattle.byte_view.specs.Cursor.{Reads};
ghost use Rattle.value_model.specs.Spelling.{Spells};
ghost use Rattle.value_model.specs.Forms.{offset_size, operand_of};
ghost use Rattle.value_model.specs.Reading.{direct_at, value_at, value_behind};
ghost use Rattle.dwarf_forms.specs.Meaning.{GivesValue, code_of, meaning_of};

use crate::form::{FormKind, kind};
use crate::value::{FormFault, UnitShape, Value};
use byte_view::{Cur, ViewFault};

/// An offset of 4 bytes, or of 8 in 64-bit DWARF.
#[tactic(auto, using(crate::proofs::ReadLemmas::end_kept))]
#[inline(always)]
fn read_offset(cur: &mut Cur<'_>, shape: UnitShape) -> Result<u64, ViewFault>
    ensures exact { Gives (λ n. n) result cur.new.left
        (field_at (offset_size shape.wide) cur.old.left) }
    ensures end { cur.new.at + length cur.new.left ≡ cur.old.at + length cur.old.left }
    ensures err { OnErr result (cur.new ≡ cur.old) }
{
    if shape.wide {
        cur.u64()
    } else {
        Ok(u64::from(cur.u32()?))
    }
}

/// The value of a form that needs no abbreviation.
// Why: One `match` reads all forms, an arm a form; forms of one shape share a macro.
#[tactic(auto, using(crate::proofs::ReadLemmas::end_kept), unfolding(value_model::specs::Forms::operand_of))]
#[inline(always)]
fn read_direct<'a>(
    cur: &mut Cur<'a>,
    kind: FormKind,
    shape: UnitShape,
) -> Result<Value<'a>, FormFault>
    ensures exact { GivesValue result cur.new.left
        (direct_at (operand_of (code_of kind)) shape.wide cur.old.left) }
    ensures end { cur.new.at + length cur.new.left ≡ cur.old.at + length cur.old.left }
    ensures err { OnErr result (cur.new ≡ cur.old) }
{
    macro_rules! fixed {
        ($read:ident as $class:ident) => {
            Ok(Value::$class(u64::from(cur.$read()?)))
        };
    }
    macro_rules! uleb {
        ($class:ident) => {
            Ok(Value::$class(cur.uleb()?))
        };
    }
    macro_rules! offset {
        ($class:ident) => {
            Ok(Value::$class(read_offset(cur, shape)?))
        };
    }
    macro_rules! counted {
        ($read:ident) => {{
            let mut ahead = cur.fork();
            let length = u64::from(ahead.$read()?);
            let run = ahead.take(length)?;
            *cur = ahead;
            Ok(Value::Block(run))
        }};
    }
    match kind {
        FormKind::Addr => fixed!(u64 as Addr),
        FormKind::Data1 => fixed!(u8 as Const),
        FormKind::Data2 => fixed!(u16 as Const),
        FormKind::Data4 => fixed!(u32 as Const),
        FormKind::Data8 => fixed!(u64 as Const),
        FormKind::Ref1 => fixed!(u8 as Ref),
        FormKind::Ref2 => fixed!(u16 as Ref),
        FormKind::Ref4 => fixed!(u32 as Ref),
        FormKind::Ref8 => fixed!(u64 as Ref),
        FormKind::RefSig8 => fixed!(u64 as Sig),
        FormKind::Strx1 => fixed!(u8 as StrIndex),
        FormKind::Strx2 => fixed!(u16 as StrIndex),
        FormKind::Strx3 => fixed!(u24 as StrIndex),
        FormKind::Strx4 => fixed!(u32 as StrIndex),
        FormKind::Addrx1 => fixed!(u8 as AddrIndex),
        FormKind::Addrx2 => fixed!(u16 as AddrIndex),
        FormKind::Addrx3 => fixed!(u24 as AddrIndex),
        FormKind::Addrx4 => fixed!(u32 as AddrIndex),
        FormKind::Udata => uleb!(Const),
        FormKind::RefUdata => uleb!(Ref),
        FormKind::Strx => uleb!(StrIndex),
        FormKind::Addrx => uleb!(AddrIndex),
        FormKind::Loclistx => uleb!(LocIndex),
        FormKind::Rnglistx => uleb!(RangeIndex),
        FormKind::Strp => offset!(StrAt),
        FormKind::LineStrp => offset!(LineStrAt),
        FormKind::RefAddr => offset!(RefInfo),
        FormKind::SecOffset => offset!(Offset),
        FormKind::Block1 => counted!(u8),
        FormKind::Block2 => counted!(u16),
        FormKind::Block4 => counted!(u32),
        FormKind::Block => counted!(uleb),
        FormKind::Exprloc => counted!(uleb),
        FormKind::Sdata => Ok(Value::Const(cur.sleb()?.cast_unsigned())),
        FormKind::String => Ok(Value::Text(cur.cstr()?)),
        FormKind::Flag => Ok(Value::Flag(cur.u8()? != 0)),
        FormKind::FlagPresent => Ok(Value::Flag(true)),
        FormKind::Data16 => Ok(Value::Block(cur.take(16)?)),
        FormKind::Indirect => Err(FormFault::IndirectTwice),
        FormKind::ImplicitConst => Err(FormFault::BadForm),
    }
}

/// The value of the form whose code stands at the cursor.
#[tactic(auto, using(crate::proofs::ReadLemmas::end_kept))]
#[inline(never)]
fn read_indirect<'a>(cur: &mut Cur<'a>, shape: UnitShape) -> Result<Value<'a>, FormFault>
    ensures exact { GivesValue result cur.new.left
        (value_behind shape.wide (uleb_at cur.old.left)) }
    ensures end { cur.new.at + length cur.new.left ≡ cur.old.at + length cur.old.left }
    ensures err { OnErr result (cur.new ≡ cur.old) }
{
    let mut ahead = cur.fork();
    let code = ahead.uleb()?;
    let Some(kind) = kind(code) else {
        return Err(FormFault::BadForm);
    };
    let value = read_direct(&mut ahead, kind, shape)?;
    *cur = ahead;
    Ok(value)
}

/// The value of a form, beside the constant that its abbreviation has.
#[tactic(auto, unfolding(value_model::specs::Forms::operand_of, value_model::specs::Reading::value_at))]
#[inline(always)]
fn read_form<'a>(
    cur: &mut Cur<'a>,
    kind: FormKind,
    implicit: i64,
    shape: UnitShape,
) -> Result<Value<'a>, FormFault>
    ensures exact { GivesValue result cur.new.left
        (value_at (code_of kind) implicit shape.wide cur.old.left) }
    ensures end { cur.new.at + length cur.new.left ≡ cur.old.at + length cur.old.left }
    ensures err { OnErr result (cur.new ≡ cur.old) }
{
    match kind {
        FormKind::ImplicitConst => Ok(Value::Const(implicit.cast_unsigned())),
        FormKind::Indirect => read_indirect(cur, shape),
        _ => read_direct(cur, kind, shape),
    }
}

/// The value of a form whose code was looked up before, as `read_value` reads it.
///
/// # Errors
/// Those of `read_value`.
#[inline(always)]
pub fn read_kind<'a>(
    cur: &mut Cur<'a>,
    kind: FormKind,
    implicit: i64,
    shape: UnitShape,
) -> Result<Value<'a>, FormFault>
    ensures found { IfOk result (λ value.
        Reads (Spells implicit shape.wide (code_of kind)) cur.old cur.new (meaning_of value)) }
    ensures exact { GivesValue result cur.new.left
        (value_at (code_of kind) implicit shape.wide cur.old.left) }
    ensures err { OnErr result (cur.new ≡ cur.old) }
{
    read_form(cur, kind, implicit, shape)
}

/// The value of the form of this code. `implicit` is the constant that the abbreviation has for
/// `DW_FORM_implicit_const`, and no other form looks at it.
///
/// # Errors
/// `BadForm` where the code is of no form that is read, also behind `DW_FORM_indirect`, where
/// `DW_FORM_implicit_const` is none; `IndirectTwice` where `DW_FORM_indirect` stands behind
/// `DW_FORM_indirect`; `View` where the cursor refuses a part of the value. The cursor then stands
/// where it stood.
///
/// Source: DWARF 5, section 7.5.6, table 7.6.
#[tactic(auto, unfolding(value_model::specs::Reading::value_at))]
#[inline]
pub fn read_value<'a>(
    cur: &mut Cur<'a>,
    form: u64,
    implicit: i64,
    shape: UnitShape,
) -> Result<Value<'a>, FormFault>
    ensures found { IfOk result (λ value.
        Reads (Spells implicit shape.wide form) cur.old cur.new (meaning_of value)) }
    ensures exact { GivesValue result cur.new.left
        (value_at form implicit shape.wide cur.old.left) }
    ensures err { OnErr result (cur.new ≡ cur.old) }
{
    match kind(form) {
        Some(kind) => read_kind(cur, kind, implicit, shape),
        None => Err(FormFault::BadForm),
    }
}
