// The keys that have lines besides those that are recorded.
ghost use Rattle.std.specs.Prelude.{◌≡◌, ◌<◌, ◌≤◌, ◌++◌, All, IfOk, filter, length};
ghost use Rattle.std.specs.List.{AllByRecursion};
ghost use Rattle.cold_maker.specs.Besides.{counted, first_ways};
ghost use Rattle.cold_model.specs.Cold.{stands_in, told_cold};
ghost use Rattle.profile_text.specs.Draft.{IsGivenItem};
ghost use Rattle.profile_tree.specs.Numbers.{AreOf, numbers_said};
ghost use Rattle.profile_tree.specs.Said.{ways_said};

use crate::told::told_cold;
use key_types::{KeyId, Keys, Names};
use profile_text::Item;
use profile_tree::{Numbers, standing_keys};
use refusal::NoMemory;
use std::alloc::Global;

/// The keys of which a text tells the count 0, and those of the first `known` keys whose functions
/// stand in the profile of its numbers.
pub(crate) fn besides_of(
    alloc: Global,
    items: &[Item],
    numbers: &Numbers,
    known: u32,
    keys: &Keys,
    names: &Names,
) -> Result<Vec<KeyId>, NoMemory>
    requires known { known ≤ length keys.now }
    requires given { AllByRecursion (IsGivenItem (length names.now) (length keys.now)) items.now }
    requires numbers { AreOf (length names.now) keys.now numbers.now }
    ensures ways { IfOk result (λ besides. ways_said names.now keys.now besides.items
        ≡ told_cold (counted names.now keys.now items.now)
        ++ filter (stands_in (numbers_said names.now keys.now numbers.now))
        (first_ways names.now keys.now known)) }
    ensures given { IfOk result (λ besides. All (λ key. key.0 < length keys.now) besides.items) }
{
    let mut besides = told_cold(alloc, items)?;
    let mut standing = standing_keys(alloc, numbers, known, keys, names)?;
    besides.append(&mut standing)?;
    Ok(besides)
}
