// The tree of a profile text with lines that never ran.
ghost use Rattle.std.specs.Prelude.{◌≡◌, ◌≤◌, All, IfOk, length, map};
ghost use Rattle.cold_model.specs.Cold.{cold_lines_of};
ghost use Rattle.cold_maker.specs.Besides.{first_ways};
ghost use Rattle.profile_text.specs.Numbers.{AreNumbersOf, counted};
ghost use Rattle.profile_tree.specs.Told.{IsOf, told};

use crate::besides::besides_of;
use key_types::{Keys, Names};
use profile_text::{Profile, numbers_of};
use profile_tree::Tree;
use refusal::NoMemory;
use std::alloc::Global;

/// The profile of a text's numbers, in which each key keeps its line of which the text tells the
/// count 0, and each of the first `known` keys whose function stands there has one, with count 0
/// where the text tells none. Totals are summed anew.
///
/// No head, key or target has two numbers, and all are of `keys` and `names`, as are those that
/// `profile_text::read` gives.
///
/// # Errors
/// `NoMemory`.
pub fn tree_of(
    alloc: Global,
    part: &Profile,
    known: u32,
    keys: &Keys,
    names: &Names,
) -> Result<Tree, NoMemory>
    requires known { known ≤ length keys.now }
    requires numbers { AreNumbersOf (length names.now) keys.now part.now.items }
    ensures lines { IfOk result (λ tree. map (told names.now) tree.lines
        ≡ cold_lines_of (first_ways names.now keys.now known)
        (counted names.now keys.now part.now.items)) }
    ensures names { IfOk result (λ tree. All (IsOf names.now) tree.lines) }
{
    let items = part.items.as_slice();
    let numbers = numbers_of(alloc, items, keys)?;
    let besides = besides_of(alloc, items, &numbers, known, keys, names)?;
    profile_tree::tree_of(alloc, numbers, &besides, keys, names)
}
