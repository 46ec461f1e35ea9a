// The count of a key in a profile that is put together.
ghost use Rattle.std.specs.Prelude.{◌≡◌, ◌≤◌, ℕ, length, slice_get, Some};

use key_types::KeyId;
use profile_tree::Tree;

/// The count that stands at a key's number, or 0 behind all counts.
pub fn count_of(tree: &Tree, key: KeyId) -> u64
    ensures there { (count : ℕ) → slice_get tree.now.counts key.0 ≡ Some count → result ≡ count }
    ensures behind { length tree.now.counts ≤ key.0 → result ≡ 0 }
{
    tree.count(key)
}
