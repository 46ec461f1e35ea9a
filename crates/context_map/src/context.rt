ghost use Rattle.std.specs.Prelude.{◌≡◌, ◌<◌, IfOk, length};
ghost use Rattle.context_map.specs.Paths.{AreParents};
ghost use Rattle.context_map.specs.Contexts.{IsContext};

use crate::named::{NamedPath, named_by, push_frame};
use chain_model::Member;
use refusal::NoMemory;
use std::alloc::Global;

/// What all addresses have in common whose chain ends with the same member.
#[derive(Debug, Drop)]
pub struct Context {
    /// The number of their function.
    pub function: usize,
    /// Its unit.
    pub unit: u32,
    /// The names of the chain, if all its members have one.
    pub named: Option<NamedPath>,
}

/// The context of the chains that end with a member; with `base` the discriminators of their calls
/// are bases.
///
/// # Errors
/// `NoMemory`.
pub fn context_of(
    alloc: Global,
    members: &[Member],
    parents: &[Option<usize>],
    number: usize,
    base: bool,
) -> Result<Context, NoMemory>
    requires parents { AreParents members.now parents.now }
    requires there { number < length members.now }
    ensures { IfOk result (λ context. IsContext members.now base number context) }
{
    let member = &members[number];
    let mut calls = Vec::with_capacity(alloc, usize::from(member.depth))?;
    let mut all_named = true;
    let mut function = number;
    while let Some(parent) = parents[function] {
        let start = members[parent].start;
        let named = push_frame(&mut calls, base, start, &members[function])?;
        all_named = named && all_named;
        function = parent;
    }
    calls.reverse();
    let named = named_by(members[function].name, all_named, calls, member.start);
    let unit = members[function].unit;
    Ok(Context {
        function,
        unit,
        named,
    })
}
