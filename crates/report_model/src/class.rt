use key_types::NameId;

/// What a branch is to a profile.
// Why: To a report all ways are one, and all functions. Code and report share the type, so it has
// the number of a name; the number 0 stands for each name there.
#[derive(Clone, Copy, Debug, PartialEq, Eq)]
pub enum Class {
    /// It enters the function of this name.
    Entry(NameId),
    /// It goes from one place of the program to another.
    Inside,
    /// It cannot be told of places, for this reason.
    Unmapped(Reason),
}

/// Why a branch cannot be told of places: what the place of its source or else of its target lacks.
#[derive(Clone, Copy, Debug, PartialEq, Eq)]
pub enum Reason {
    /// No function holds the source.
    FromOutside,
    /// A function of the source's chain has no name.
    FromNameless,
    /// The source has no line.
    FromNoLine,
    /// No function holds the target.
    ToOutside,
    /// A function of the target's chain has no name.
    ToNameless,
}

/// What a sampled range is: the addresses from the target of a branch to the source of the next.
#[derive(Clone, Copy, Debug, PartialEq, Eq)]
pub enum RangeClass {
    /// All its addresses ran: one function holds them.
    Ran,
    /// It ends before it begins.
    Reversed,
    /// No function holds its first address, or none its last.
    RangeOutside,
    /// It lies in a function and leaves it.
    Crossing,
}
