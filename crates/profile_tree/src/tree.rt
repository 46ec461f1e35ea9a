// The whole profile.
ghost use Rattle.std.specs.Prelude.{◌≡◌, ◌∷◌, unwrap_or};
ghost use Rattle.std.specs.List.{slice_get};

use crate::line::Line;
use item_lists::Items;
use key_types::KeyId;

/// A profile: its lines in the order in which they are written, and the count of each key.
// Why: It is one flat list of lines in written order, with depths. Nodes that hold nodes would
// recur, and a chain of 255 calls would be as deep on the stack.
#[derive(Debug, Drop)]
pub struct Tree {
    pub lines: Items<Line>,
    /// The count of each key, in the order of the keys' numbers.
    pub counts: Items<u64>,
}

impl Tree {
    /// The count of a key: 0 for a key whose number is not below the number of counts.
    pub fn count(&self, key: KeyId) -> u64
        ensures { result ≡ unwrap_or (slice_get self.now.counts key.0) 0 }
    {
        match self.counts.as_slice().get(key.0 as usize) {
            Some(count) => *count,
            None => 0,
        }
    }
}
