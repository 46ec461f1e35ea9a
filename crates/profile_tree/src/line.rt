// The lines of a profile.
use item_lists::Items;
use key_types::NameId;

/// A function that was called from a line, and how often.
#[derive(Clone, Copy, Debug, PartialEq, Eq)]
pub struct Target {
    pub name: NameId,
    pub times: u64,
}

/// A line of a profile.
///
/// A depth is the number of calls that lead to the line, with the function that was compiled. An
/// offset counts lines from the first one of the function above, modulo 65,536.
///
/// Source: LLVM, SampleProfReader.h, "Text format".
#[derive(Debug, Drop)]
pub enum Line {
    /// A function that was compiled.
    Function {
        name: NameId,
        /// The sum of the counts below it.
        total: u64,
        /// How often it was entered.
        head: u64,
    },
    /// A line of the function above.
    Body {
        depth: usize,
        offset: u16,
        disc: u32,
        count: u64,
        /// The functions that were called from it, those that were called most often first.
        targets: Items<Target>,
    },
    /// A call in the function above that was inlined.
    Call {
        depth: usize,
        offset: u16,
        disc: u32,
        /// The function that is called.
        name: NameId,
        /// The sum of the counts below it.
        total: u64,
    },
}
