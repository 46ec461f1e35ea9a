// Who is told of augmentations.
ghost use Rattle.std.specs.Prelude.{◌≡◌, ℕ, ◌+◌, ◌^◌, ◌<◌};

use std::marker::Model;

/// What is told of each augmentation: one change of the counts by one amount along one path.
pub trait Ledger {
    /// How often it was told.
    ghost ticks: { Self → ℕ };

    /// One augmentation more.
    fn tick(&mut self)
        requires { ticks self.old + 1 < 2 ^ 64 }
        ensures { ticks self.new ≡ ticks self.old + 1 };
}

/// The ledger to which a solver tells its augmentations.
#[derive(Debug, Drop)]
pub struct Steps<L: Ledger> {
    pub ledger: L,
}

/// A ledger that counts.
#[derive(Debug, Drop)]
pub struct Tally {
    ticks: u64,
}

// Clauses see the number.
impl Model for Tally {
    ghost Value = { ℕ };

    ghost view = { λ tally. tally.ticks };
}

impl Tally {
    /// It was told of nothing yet.
    pub fn new() -> Tally
        ensures { result ≡ 0 }
    {
        Tally { ticks: 0 }
    }

    /// How often it was told.
    pub fn ticks(&self) -> u64
        ensures { result ≡ self.now }
    {
        self.ticks
    }
}

impl Ledger for Tally {
    ghost ticks = { λ tally. tally };

    fn tick(&mut self) {
        self.ticks += 1;
    }
}

/// Tells a ledger of so many augmentations.
pub(crate) fn tell<L: Ledger>(ledger: &mut L, count: u64)
    requires { L.ticks ledger.old + count < 2 ^ 64 }
    ensures { L.ticks ledger.new ≡ L.ticks ledger.old + count }
{
    for _ in 0..count {
        ledger.tick();
    }
}
