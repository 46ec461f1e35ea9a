// What scaling rests on, on the definitions alone.
ghost use Rattle.scaling_model.specs.Laws.{CoarseCutsAreCuts, CoarseNetsAreNets};
ghost use Rattle.scaling_model.specs.Laws.{CoarseStartsAreSmall, RefinedCountsFit, ShiftsHalve};

/// In units of 1 a network is as it was. Units of twice the size halve it: lower bounds are rounded
/// down, upper bounds and weights are rounded up.
pub fn shifts_halve()
    ensures { ShiftsHalve }
{}

/// In coarser units the network of a function is the network of a function, with other bounds and
/// weights.
pub fn coarse_nets_are_nets()
    ensures { CoarseNetsAreNets }
{}

/// A set of sides that is a cut in coarser units is a cut.
pub fn coarse_cuts_are_cuts()
    ensures { CoarseCutsAreCuts }
{}

/// Where all weights, moved into their bounds, are at most 2^(s + b), they are at most 2^b in units
/// of 2^s.
pub fn coarse_starts_are_small()
    ensures { CoarseStartsAreSmall }
{}

/// Where a count is within the bounds of an arc in units of twice the size, and prices fit it, its
/// double is at most one unit away from a count of which both hold here.
///
/// Source: "Network Flows", 10.2.
pub fn refined_counts_fit()
    ensures { RefinedCountsFit }
{}
