// A place in a program, as a profile names it.
use crate::ids::NameId;
use item_lists::Items;

/// A call that the compiler inlined.
#[derive(Clone, Copy, Debug, PartialEq, Eq, Hash)]
pub struct Frame {
    /// The function that is called.
    pub name: NameId,
    /// The line of the call, counted from the first line of the function that calls, modulo 65,536.
    pub offset: u16,
    /// The discriminator of the call.
    pub disc: u32,
}

/// A place in a program: a function, the calls inlined into it, and a line of the innermost.
// Why: Names are numbered one to one, so keys hold numbers and compare them.
#[derive(Debug, PartialEq, Eq, Hash, Drop)]
pub struct Key {
    /// The function that was compiled.
    pub root: NameId,
    /// The inlined calls that lead to the place, the outermost first.
    pub calls: Items<Frame>,
    /// The line, counted from the first line of the innermost function, modulo 65,536.
    pub offset: u16,
    /// The discriminator of the line.
    pub disc: u32,
}
