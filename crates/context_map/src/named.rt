ghost use Rattle.std.specs.Prelude.{◌≡◌, ◌++◌, ◌∷◌, [], Bool, IfOk, Option};
ghost use Rattle.std.specs.Option.{option_map};
ghost use Rattle.chain_model.specs.Places.{LineAndDisc, frame as frame_of, place_by};
ghost use Rattle.context_map.specs.Contexts.{place_in, told};

use crate::offset::{kept, line_offset};
use chain_model::Member;
use key_types::{Frame, NameId};
use refusal::NoMemory;

/// The names on the way from a function to a call in it.
#[derive(Debug, Drop)]
pub struct NamedPath {
    /// The function.
    pub root: NameId,
    /// The calls in it, the outermost first.
    pub calls: Vec<Frame>,
    /// The line in which the innermost starts.
    pub start: u64,
}

/// Appends the frame of a call, inlined into a function that starts in a line, if it has a name,
/// and says whether it has.
pub(crate) fn push_frame(
    calls: &mut Vec<Frame>,
    base: bool,
    start: u64,
    call: &Member,
) -> Result<bool, NoMemory>
    ensures { IfOk result (λ named. told named calls.new.items
        ≡ option_map (λ name. calls.old.items ++ frame_of base start call.now name ∷ [])
        call.now.name) }
{
    let Some(name) = call.name else {
        return Ok(false);
    };
    calls.push(Frame {
        name,
        offset: line_offset(start, call.line),
        disc: kept(base, call.disc),
    })?;
    Ok(true)
}

/// The names of a function and of calls in it, if all of them are named.
pub(crate) fn named_by(
    root: Option<NameId>,
    all_named: bool,
    calls: Vec<Frame>,
    start: u64,
) -> Option<NamedPath>
    ensures { (base : Bool) (row : Option LineAndDisc)
        → place_by base start root (told all_named calls.items) row ≡ place_in base result row }
{
    let Some(root) = root else {
        return None;
    };
    if all_named {
        Some(NamedPath { root, calls, start })
    } else {
        None
    }
}
