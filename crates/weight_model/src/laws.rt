// The definitions seen from the other side.
ghost use Rattle.std.specs.Prelude.{ℕ};
ghost use Rattle.weight_model.specs.Laws.{PassingHoldsBoth, WeightIsOne};

/// A block has one weight.
pub fn weight_is_one()
    ensures { WeightIsOne ℕ }
{}

/// A range that runs past an address from the one before it holds both.
pub fn passing_holds_both()
    ensures { PassingHoldsBoth }
{}
