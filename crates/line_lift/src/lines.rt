// A profile with repaired counts on its lines.
ghost use Rattle.std.specs.Prelude.{◌≡◌, All, IfOk, length, map};
ghost use Rattle.key_types.specs.Segments.{AreSegments};
ghost use Rattle.profile_model.specs.Profile.{lines_of};
ghost use Rattle.profile_text.specs.Numbers.{AreNumbersOf};
ghost use Rattle.profile_tree.specs.Told.{IsOf, told};
ghost use Rattle.line_lift.specs.Held.{HaveKeys};
ghost use Rattle.line_lift.specs.Lift.{lifted_by, repaired};

use crate::held::held_counts;
use crate::spans::{largest_first, spans_of};
use crate::stated::hold;
use cfg_text::Fun;
use key_types::{Keys, Names, Seg};
use profile_text::{Profile, numbers_of};
use profile_tree::{Tree, tree_of};
use refusal::NoMemory;
use repair_text::Repair;
use std::alloc::Global;

/// The profile `part` with repaired counts on its lines: each key that a block of a function with
/// counts holds has the largest repaired count of these blocks, 0 too. Another key, and each head
/// and target, has its number in `part`, or 0 where that tells none. A total stands still at
/// 2^64 - 1.
///
/// The segments tell the key of each address: a block holds the keys of its addresses. The first
/// repair is of the first function, and so on; a cut lifts nothing. No head, key or target stands
/// twice in `part`, and all numbers are of `keys` and `names`.
///
/// # Errors
/// `NoMemory`.
pub fn lift(
    alloc: Global,
    part: &Profile,
    segments: &[Seg],
    funs: &[Fun<'_>],
    repairs: &[Repair],
    keys: &Keys,
    names: &Names<'_>,
) -> Result<Tree, NoMemory>
    requires segments { AreSegments segments.now }
    requires known { HaveKeys (length keys.now) segments.now }
    requires numbers { AreNumbersOf (length names.now) keys.now part.now.items }
    ensures lines { IfOk result (λ tree. map (told names.now) tree.lines
        ≡ lines_of (lifted_by names.now keys.now segments.now
        (repaired funs.now repairs.now) part.now.items)) }
    ensures names { IfOk result (λ tree. All (IsOf names.now) tree.lines) }
{
    keys.each_once();
    names.each_once();
    let items = part.items.as_slice();
    let spans = largest_first(alloc, spans_of(alloc, funs, repairs)?)?;
    let held = held_counts(alloc, &spans, segments, keys.len())?;
    let mut numbers = numbers_of(alloc, items, keys)?;
    hold(&mut numbers, &held);
    tree_of(alloc, numbers, &[], keys, names)
}
