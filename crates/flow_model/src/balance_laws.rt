// What a circulation means at the blocks of a function, and what the tests of blocks show.
ghost use Rattle.flow_model.specs.BalanceLaws.{BalanceIsConservation, NetsAreLimited};
ghost use Rattle.flow_model.specs.BalanceLaws.{TestsAreByNumber, TestsAreExact, TestsShowLeast};

/// Counts of a function are a circulation within bounds, with the calls and the returns that they
/// leave, exactly where each block runs as often as edges lead to it (block 0 at least so often)
/// and as often as edges lead on (an exit at least so often), and blocks, edges and calls are
/// within their bounds.
pub fn balance_is_conservation()
    ensures { BalanceIsConservation }
{}

/// Each block and each edge passes its test exactly where the counts conserve within bounds and the
/// prices fit them. Then no counts of any size that conserve within bounds cost less. What the test
/// of a block asks of its arc is what the block's number says: how often edges lead to it and from
/// it, and whether it is block 0 and an exit.
pub fn tests_show_least_counts()
    ensures exact { TestsAreExact }
    ensures least { TestsShowLeast }
    ensures by_number { TestsAreByNumber }
{}

/// The network of a function within the limits of a block text has fewer than 2^19 arcs, bounds
/// and weights below 2^44, and costs of at most 40 a unit.
pub fn nets_are_limited()
    ensures { NetsAreLimited }
{}
