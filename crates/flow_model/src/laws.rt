// What fitting prices and cuts show, on the definitions alone.
ghost use Rattle.flow_model.specs.Laws.{CutsShowNoCounts, CutsShowNone};
ghost use Rattle.flow_model.specs.Laws.{FittingPricesShowLeast, FittingPricesShowLeastCounts, TheRootConserves};

/// Prices that fit a circulation within bounds show that it costs least among all circulations
/// within bounds, whatever their counts; and so for the counts of a function.
///
/// Source: "Network Flows", 9.3, "Reduced Cost Optimality Conditions".
pub fn fitting_prices_show_least()
    ensures arcs { FittingPricesShowLeast }
    ensures counts { FittingPricesShowLeastCounts }
{}

/// Where a set of nodes is a cut, no circulation is within bounds; and so for the counts of a
/// function.
///
/// Source: "Network Flows", 6.7, theorem 6.11 (Hoffman's circulation theorem).
pub fn a_cut_shows_there_is_none()
    ensures arcs { CutsShowNone }
    ensures counts { CutsShowNoCounts }
{}

/// Where as much enters each other node as leaves it, so it is at the root.
pub fn the_root_conserves()
    ensures { TheRootConserves }
{}
