// What `where` writes.
ghost use Rattle.std.specs.Prelude.{◌≡◌, ◌++◌, ◌<◌, length, codes, IfOk, OnOk};
ghost use Rattle.std.specs.List.{All, flat_map};
ghost use Rattle.profile_model.specs.Text.{location_text};
ghost use Rattle.binary_model.specs.Places.{Place, way_of};
ghost use Rattle.key_types.specs.Numbers.{name_of as name_told};
ghost use Rattle.binary_places.specs.Binary.{IsGiven, TellsNamed};
ghost use Rattle.command_model.specs.Where.{place_text, where_text, way_text};
ghost use Rattle.answer_text.specs.Calls.{call_text};

use key_types::{Frame, Key, Keys, NameId, Names, Where};
use refusal::NoMemory;
use std::alloc::Global;
use text_scan::push_number;

/// What `where` writes of a place: a line with the function, each inlined call that stands around
/// the address, and the line of source; or why there is none.
///
/// # Errors
/// `NoMemory`.
pub fn place_line(
    alloc: Global,
    names: &Names<'_>,
    keys: &Keys,
    place: Where,
) -> Result<Vec<u8>, NoMemory>
    requires { (told : Place) × TellsNamed names.now keys.now told place }
    ensures { IfOk result (λ out. (told : Place) →
        TellsNamed names.now keys.now told place → out.items ≡ where_text told) }
{
    let mut out = Vec::new(alloc);
    push_place(&mut out, names, keys, place)?;
    out.push(b'\n')?;
    Ok(out)
}

/// Appends a place.
fn push_place(
    out: &mut Vec<u8>,
    names: &Names<'_>,
    keys: &Keys,
    place: Where,
) -> Result<(), NoMemory>
    requires { (told : Place) × TellsNamed names.now keys.now told place }
    ensures { OnOk result ((told : Place) → TellsNamed names.now keys.now told place →
        out.new.items ≡ out.old.items ++ place_text told) }
{
    match place {
        Where::Outside => push(out, b"outside"),
        Where::Nameless => push(out, b"nameless"),
        Where::NoLine => push(out, b"noline"),
        Where::At(key) => push_key(out, names, keys.get(key)),
    }
}

/// Appends bytes.
fn push(out: &mut Vec<u8>, bytes: &[u8]) -> Result<(), NoMemory>
    ensures { OnOk result (out.new.items ≡ out.old.items ++ bytes.now) }
{
    out.extend_from_slice(bytes)?;
    Ok(())
}

/// Appends a key: the function, each inlined call, and the line of the innermost.
fn push_key(out: &mut Vec<u8>, names: &Names<'_>, key: &Key) -> Result<(), NoMemory>
    requires { IsGiven names.now key.now }
    ensures { OnOk result
        (out.new.items ≡ out.old.items ++ way_text (way_of names.now key.now)) }
{
    push(out, name_of(names, key.root))?;
    push_calls(out, names, key.calls.as_slice())?;
    push_location(out, key.offset, key.disc)
}

/// Appends calls, each by its location and the name of the function that it calls.
fn push_calls(out: &mut Vec<u8>, names: &Names<'_>, calls: &[Frame]) -> Result<(), NoMemory>
    requires { All (λ call. call.name.0 < length names.now) calls.now }
    ensures { OnOk result (out.new.items
        ≡ out.old.items ++ flat_map (call_text names.now) calls.now) }
{
    for call in calls {
        push_location(out, call.offset, call.disc)?;
        out.push(b' ')?;
        push(out, name_of(names, call.name))?;
    }
    Ok(())
}

/// Appends a space and a location: an offset, and a discriminator where it is not 0.
fn push_location(out: &mut Vec<u8>, offset: u16, disc: u32) -> Result<(), NoMemory>
    ensures { OnOk result (out.new.items
        ≡ out.old.items ++ (codes " " ++ location_text offset disc)) }
{
    out.push(b' ')?;
    push_number(out, u128::from(offset))?;
    if disc != 0 {
        out.push(b'.')?;
        push_number(out, u128::from(disc))?;
    }
    Ok(())
}

/// The name of a number that was given.
fn name_of<'a>(names: &Names<'a>, id: NameId) -> &'a [u8]
    requires { id.0 < length names.now }
    ensures { result.now ≡ name_told names.now id }
{
    names.get(id)
}
