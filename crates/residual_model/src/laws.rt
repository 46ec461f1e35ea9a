// What the parts of a solver rest on, on the definitions alone.
ghost use Rattle.residual_model.specs.Bounds.{UpperBoundsAgree};
ghost use Rattle.residual_model.specs.Laws.{ClosedSidesAreACut, MovedPricesFit, PushesAgainstFit};
ghost use Rattle.residual_model.specs.Laws.{PushesAlongFit, StartingCountsFit, StepsJudgePrices};
ghost use Rattle.residual_model.specs.Loads.{CirculationsAreLoads};

/// Prices fit counts exactly where no step has a reduced cost below 0.
///
/// Source: "Network Flows", 9.3, "Reduced Cost Optimality Conditions".
pub fn steps_judge_prices()
    ensures { StepsJudgePrices }
{}

/// Where no step leaves a set of nodes, as much enters each of them as leaves it or more, and more
/// enters one of them, the set is a cut.
///
/// Source: "Network Flows", 6.7, theorem 6.11 (Hoffman's circulation theorem).
pub fn closed_sides_are_a_cut()
    ensures { ClosedSidesAreACut }
{}

/// Where distances by reduced costs hold on each step from a node that is nearer than a limit,
/// prices still fit when each of these nodes falls by what it is nearer.
///
/// Source: "Network Flows", 9.7, lemma 9.11.
pub fn moved_prices_fit()
    ensures { MovedPricesFit }
{}

/// Each weight moved into its bounds is a count within them, which equal prices fit.
pub fn starting_counts_fit()
    ensures { StartingCountsFit }
{}

/// What is pushed along an arc, or against it, at no reduced cost and on one side of the weight,
/// leaves the count within its bounds and the prices fitting.
///
/// Source: "Network Flows", 9.7, lemma 9.12.
pub fn pushes_keep_prices_fitting()
    ensures along { PushesAlongFit }
    ensures against { PushesAgainstFit }
{}

/// A circulation within bounds on the network of a function has on the arcs of calls and returns
/// what its counts of blocks and edges leave there, so that these conserve within bounds.
pub fn circulations_are_loads()
    ensures { CirculationsAreLoads }
{}

/// An upper bound means one thing, whether a judge asks if a number exceeds it, a step if one more
/// may pass, or a starting count is capped by it.
pub fn upper_bounds_agree()
    ensures { UpperBoundsAgree }
{}
