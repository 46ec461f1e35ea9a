// The addresses that a function's blocks hold so far.
ghost use Rattle.std.specs.Prelude.{◌≡◌, ◌<◌, ◌||◌, ℕ, Bool, [], OnOk, OnErr, false};
ghost use Rattle.std.specs.List.{list_any};
ghost use Rattle.cfg_text.specs.Taken.{meets};

use refusal::NoMemory;
use std::alloc::Global;
use std::collections::BTreeMap;
use std::marker::Model;

/// Spans of addresses, no two of them with a common one: the first address of each, and the one
/// behind its last.
#[derive(Debug, Drop)]
pub(crate) struct Taken {
    spans: BTreeMap<u64, u64>,
}

// Clauses see the spans in the order of their addresses.
impl Model for Taken {
    ghost use Rattle.std.specs.Prelude.{ℕ, List};
    ghost use Rattle.cfg_text.specs.Taken.{AreApart};

    ghost Value = { List (ℕ × ℕ) };

    ghost view = { λ t. t.spans.entries };

    ghost invariant = { λ t. AreApart 0 t.spans.entries };
}

impl Taken {
    /// No span.
    pub(crate) fn new(alloc: Global) -> Taken
        ensures { result ≡ [] }
    {
        Taken {
            spans: BTreeMap::new(alloc),
        }
    }

    /// Whether some span holds an address from `lo` to below `hi`. It is enough to ask the last one
    /// that begins before `hi`.
    pub(crate) fn meet(&self, lo: u64, hi: u64) -> bool
        ensures { result ≡ list_any (meets lo hi) self.now }
    {
        match self.spans.range(..hi).next_back() {
            Some((_, end)) => lo < *end,
            None => false,
        }
    }

    /// Adds the span from `lo` to below `hi`, which has addresses, none of them in another span.
    ///
    /// # Errors
    /// `NoMemory`, and nothing was added.
    pub(crate) fn add(&mut self, lo: u64, hi: u64) -> Result<(), NoMemory>
        requires filled { lo < hi }
        requires free { list_any (meets lo hi) self.old ≡ false }
        ensures added { OnOk result ((p : ℕ × ℕ → Bool) →
            list_any p self.new ≡ (p (lo, hi) || list_any p self.old)) }
        ensures unchanged { OnErr result (self.new ≡ self.old) }
    {
        self.spans.insert(lo, hi)?;
        Ok(())
    }
}
