// A profile of numbers that are stated.
ghost use Rattle.std.specs.Prelude.{◌≡◌, ◌<◌, IfOk, length};
ghost use Rattle.profile_model.specs.Text.{profile_text};
ghost use Rattle.profile_tree.specs.Said.{stated};
ghost use Rattle.profile_tree.specs.Stated.{AreStated};
ghost use Rattle.profile_tree.specs.Sums.{count_stated};

use key_types::{KeyId, Keys, Names};
use profile_text::write;
use profile_tree::{Call, Head, KeyCount, from_counts};
use refusal::NoMemory;
use std::alloc::Global;

/// The text of the profile that states these numbers.
pub fn text_of_stated(
    alloc: Global,
    counts: &[KeyCount],
    calls: &[Call],
    heads: &[Head],
    keys: &Keys,
    names: &Names,
) -> Result<Vec<u8>, NoMemory>
    requires { AreStated (length names.now) keys.now counts.now calls.now heads.now }
    ensures { IfOk result (λ out. out.items
        ≡ profile_text (stated names.now keys.now counts.now calls.now heads.now)) }
{
    let tree = from_counts(alloc, counts, calls, heads, keys, names)?;
    let mut out = Vec::new(alloc);
    write(&tree, names, &mut out)?;
    Ok(out)
}

/// The count of a key in the profile that states these numbers: the one that is stated, or 0.
pub fn stated_count(
    alloc: Global,
    counts: &[KeyCount],
    calls: &[Call],
    heads: &[Head],
    keys: &Keys,
    names: &Names,
    key: KeyId,
) -> Result<u64, NoMemory>
    requires stated { AreStated (length names.now) keys.now counts.now calls.now heads.now }
    requires given { key.0 < length keys.now }
    ensures { IfOk result (λ times. times ≡ count_stated counts.now key.0) }
{
    let tree = from_counts(alloc, counts, calls, heads, keys, names)?;
    Ok(tree.count(key))
}
