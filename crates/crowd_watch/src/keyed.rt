// Hashes that go by a key.
ghost use Rattle.std.specs.Prelude.{◌≡◌};
ghost use Rattle.std.specs.Hash.{le_bytes};
ghost use Rattle.std.specs.Hash.FoldHasher as folding;

use std::hash::{BuildHasher, FoldHasher, Hasher};
use std::marker::Model;

/// Makes hashers that are fed the same key first.
#[derive(Clone, Copy, Debug)]
pub struct Keyed {
    key: u64,
}

// Clauses see the key.
impl Model for Keyed {
    ghost use Rattle.std.specs.Prelude.{ℕ};

    ghost Value = { ℕ };

    ghost view = { λ k. k.key };

    ghost inverse = { λ key. record { key = key } };
}

impl Keyed {
    /// Hashes by this key.
    pub fn by(key: u64) -> Keyed
        ensures { result ≡ key }
    {
        Keyed { key }
    }
}

impl BuildHasher for Keyed {
    type Hasher = FoldHasher;

    ghost build_hasher = { λ s. folding.write folding.initial (le_bytes 8 s) };

    fn build_hasher(&self) -> FoldHasher {
        let mut hasher = FoldHasher::default();
        hasher.write_u64(self.key);
        hasher
    }
}
