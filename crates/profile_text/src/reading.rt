// A profile text, line by line.
ghost use Rattle.std.specs.Prelude.{◌≡◌, ◌<◌, ◌≤◌, ◌+◌, ◌-◌, ◌^◌, All, length};
ghost use Rattle.refusal.specs.Place.{JudgesUnlessNoMemory};
ghost use Rattle.profile_model.specs.Judging.{first_bad_of_profile};
ghost use Rattle.profile_tree.specs.Known.{HasNames};
ghost use Rattle.profile_text.specs.Draft as spec;
ghost use Rattle.profile_text.specs.Text.{TakesOn, TellText};

use crate::draft::ProfileDraft;
use crate::item::Profile;
use crate::said::{ProfileLine, is_passed, read_line};
use key_types::{Keys, Names};
use refusal::{ItemStop, Kind, Stop};
use std::alloc::Global;
use text_scan::{Line, Lines};

/// So many names or keys before a text are taken for want of memory: 32 bits number those of the
/// text as well.
// Why: So 32 bits number what binary and texts name together. More is want of memory; no binary
// within 2^30 bytes is known to have it. Room for another text is this, and not the limit of the
// command.
const MOST_BEFORE: u32 = 1 << 31;

/// About how many bytes of a text there are to each of its body lines. Room for the keys is made at
/// once: a table that grows as they come is laid out anew each time it doubles.
const BYTES_A_KEY: usize = 48;

/// About how many bytes of a text there are to each of its functions and calls.
const BYTES_A_CALL: usize = 128;

/// The numbers of a profile text, which is the command's file `file`, in the order of the text.
/// Lines and files are numbered from 1. How large the text may be is for the caller to judge.
///
/// Names and keys are added to those that are there, at most as many of each as the text has bytes.
/// What keys name is of `names`, before and after. No head, key or target has two numbers.
///
/// # Errors
/// `Refused` at the number of the first bad line, with the first cause that holds of it:
/// - `BadLine`: it has the form of no line;
/// - `TooDeep`: it begins with more than 256 spaces;
/// - `BadIndent`: no function or call is open one step less deep;
/// - `KeyTwice`: its function, its location in the function or call above it, or the location and
///   the callee of its call stood before, or a target stands twice on it.
///
/// After an error `names` and `keys` may have grown.
///
/// Source: LLVM, SampleProfReader.h, "Text format".
pub fn read<'a>(
    alloc: Global,
    text: &'a [u8],
    file: u8,
    names: &mut Names<'a>,
    keys: &mut Keys,
) -> Result<Profile, Stop>
    requires size { length text.now ≤ 2 ^ 28 }
    requires names { length names.old < 2 ^ 31 }
    requires keys { length keys.old < 2 ^ 31 }
    requires key_names { All (HasNames (length names.old)) keys.old }
    ensures { JudgesUnlessNoMemory (first_bad_of_profile file text.now) result (λ profile.
        TellText names.old keys.old text.now profile.items names.new keys.new) }
{
    keys.reserve(text.len() / BYTES_A_KEY);
    let mut draft = ProfileDraft::new(alloc, text.len() / BYTES_A_CALL)?;
    let mut lines = Lines::new(text);
    while let Some(line) = lines.next() {
        take_in(alloc, &mut draft, line, file, names, keys)?;
    }
    Ok(draft.close())
}

/// The same behind however many names and keys. A binary has fewer than 2^31 of each.
///
/// # Errors
/// The same, and `NoMemory` where there are 2^31 names or keys.
pub fn read_behind<'a>(
    alloc: Global,
    text: &'a [u8],
    file: u8,
    names: &mut Names<'a>,
    keys: &mut Keys,
) -> Result<Profile, Stop>
    requires size { length text.now ≤ 2 ^ 28 }
    requires key_names { All (HasNames (length names.old)) keys.old }
    ensures { JudgesUnlessNoMemory (first_bad_of_profile file text.now) result (λ profile.
        TellText names.old keys.old text.now profile.items names.new keys.new) }
{
    if names.len() >= MOST_BEFORE || keys.len() >= MOST_BEFORE {
        return Err(Stop::NoMemory);
    }
    read(alloc, text, file, names, keys)
}

/// Takes in a line, unless it is passed over.
fn take_in<'a>(
    alloc: Global,
    draft: &mut ProfileDraft,
    line: Line<'a>,
    file: u8,
    names: &mut Names<'a>,
    keys: &mut Keys,
) -> Result<(), Stop>
    requires names { length names.old + length line.bytes.now < 2 ^ 32 - 1 }
    requires keys { length keys.old < 2 ^ 32 - 1 }
    requires opened { length draft.old.opened < 2 ^ 32 - 1 }
    ensures { TakesOn file names.old keys.old draft.old line.entry result
        names.new keys.new draft.new }
{
    if is_passed(line.bytes) {
        return Ok(());
    }
    match take_line(alloc, draft, line, names, keys) {
        Ok(()) => Ok(()),
        Err(stop) => Err(stop.on_line(file, line.number)),
    }
}

/// Takes in a line that is not passed over.
fn take_line<'a>(
    alloc: Global,
    draft: &mut ProfileDraft,
    line: Line<'a>,
    names: &mut Names<'a>,
    keys: &mut Keys,
) -> Result<(), ItemStop>
    requires names { length names.old + length line.bytes.now < 2 ^ 32 - 1 }
    requires keys { length keys.old < 2 ^ 32 - 1 }
    requires opened { length draft.old.opened < 2 ^ 32 - 1 }
    ensures { spec.TakesLine names.old keys.old draft.old line.entry result
        names.new keys.new draft.new }
{
    let Some(said) = read_line(alloc, line.bytes)? else {
        return Err(ItemStop::Refused(Kind::BadLine));
    };
    match said {
        ProfileLine::Function(name, _, head) => {
            draft.add_function(alloc, line.number, name, head, names)
        }
        ProfileLine::Body(depth, location, count, targets) => draft.add_body(
            alloc,
            line.number,
            depth,
            location,
            count,
            &targets,
            names,
            keys,
        ),
        ProfileLine::Call(depth, location, callee) => {
            draft.add_call(alloc, depth, location, callee, names)
        }
    }
}
