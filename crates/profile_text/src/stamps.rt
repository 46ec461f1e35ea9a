// Which numbers were seen.
ghost use Rattle.std.specs.Prelude.{◌≡◌, ◌==◌, ◌<◌, ◌≤◌, ◌+◌, ◌^◌, [], max, length, slice_index, IfOk, OnOk};
ghost use Rattle.profile_text.specs.Stamps.{IsStamped, ReadsTheSame};

use refusal::NoMemory;
use std::alloc::{AllocError, Global};
use std::marker::Model;

/// The last stamp that each number got, and 0 before the first.
#[derive(Debug, Drop)]
pub(crate) struct Stamps {
    last: Vec<u64>,
}

// Clauses see the list of the stamps, behind which all are 0.
impl Model for Stamps {
    ghost use Rattle.std.specs.Prelude.{ℕ, List};

    ghost Value = { List ℕ };

    ghost view = { λ a. a.last.items };
}

impl Stamps {
    /// No number was seen.
    pub(crate) fn new(alloc: Global) -> Stamps
        ensures { result ≡ [] }
    {
        Stamps {
            last: Vec::new(alloc),
        }
    }

    /// Gives a number this stamp, and answers whether it was its last one before.
    pub(crate) fn stamp(&mut self, id: u32, stamp: u64) -> Result<bool, NoMemory>
        ensures told { IfOk result (λ stood. stood ≡ (slice_index self.old id == stamp)) }
        ensures stamped { OnOk result (IsStamped self.old id stamp self.new) }
    {
        let at = id as usize;
        reach(&mut self.last, at)?;
        let stood = self.last[at] == stamp;
        self.last[at] = stamp;
        Ok(stood)
    }
}

/// Makes a list reach this place, by zeros.
fn reach(last: &mut Vec<u64>, at: usize) -> Result<(), AllocError>
    requires { at < 2 ^ 32 }
    ensures reads { OnOk result (ReadsTheSame last.old.items last.new.items) }
    ensures within { OnOk result (at < length last.new.items) }
    ensures len { OnOk result (length last.new.items ≤ max (length last.old.items) (at + 1)) }
{
    if last.len() <= at {
        last.resize(at + 1, 0)?;
    }
    Ok(())
}
