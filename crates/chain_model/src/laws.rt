// The definitions seen from the other side.
ghost use Rattle.chain_model.specs.Laws.{ChainsArePaths, ChainsBeginWithTheFunction, ChainsGoDown, ChainsGoStepByStep, KeysAreWhereNamesAndLineAre, OnePassFindsChains};

/// A chain begins with the function of its address, and is the path to its last member.
pub fn chains_are_paths()
    ensures function { ChainsBeginWithTheFunction }
    ensures path { ChainsArePaths }
{}

/// Each member of a chain is the first one below the member before that holds the address, so it
/// is deeper by one, and none stands in a chain twice. One pass over the members finds it.
pub fn chains_go_down()
    ensures steps { ChainsGoStepByStep }
    ensures down { ChainsGoDown }
    ensures pass { OnePassFindsChains }
{}

/// An address has a key exactly where a function holds it, each member of its chain has a name,
/// and its row has a line.
pub fn keys_are_where_names_and_line_are()
    ensures { KeysAreWhereNamesAndLineAre }
{}
