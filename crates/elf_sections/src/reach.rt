// How far code reaches: whether a range is code takes one search.
ghost use Rattle.std.specs.Prelude.{◌≡◌, IfOk};
ghost use Rattle.elf_sections.specs.Reach.{AreReaches, Rise, farthest, reaches_from};

use crate::entries::TableEntries;
use crate::program_header::{ProgramHeader, loads_of};
use load_model::LoadSegment;
use refusal::NoMemory;
use std::alloc::Global;

/// How far code reaches from an address on: up to the farthest end of the segments that begin there
/// or before.
#[derive(Clone, Copy, Debug, PartialEq, Eq)]
pub(crate) struct Reach {
    pub from: u64,
    pub end: u128,
}

/// How far the segments of code among some reach.
///
/// It takes a sort of them.
///
/// # Errors
/// `NoMemory`.
pub(crate) fn reaches_of(
    alloc: Global,
    segments: &TableEntries<'_, ProgramHeader>,
) -> Result<Vec<Reach>, NoMemory>
    ensures { IfOk result (λ reaches. AreReaches segments.now reaches.items) }
{
    let mut loads = loads_of(alloc, segments)?;
    loads.sort_unstable_by_key(|load| load.vaddr);
    rising(alloc, &loads)
}

/// How far segments reach that are in the order of their addresses.
fn rising(alloc: Global, loads: &[LoadSegment]) -> Result<Vec<Reach>, NoMemory>
    ensures { IfOk result (λ reaches. reaches.items ≡ reaches_from 0 loads.now) }
{
    let mut reaches = Vec::with_capacity(alloc, loads.len())?;
    let mut farthest = 0;
    for load in loads {
        farthest = farthest.max(u128::from(load.vaddr) + u128::from(load.size));
        reaches.push(Reach {
            from: load.vaddr,
            end: farthest,
        })?;
    }
    Ok(reaches)
}

/// How far code reaches from an address on, 0 where no segment begins there or before.
pub(crate) fn reached(reaches: &[Reach], address: u64) -> u128
    requires { Rise reaches.now }
    ensures { result ≡ farthest 0 reaches.now address }
{
    let begun = reaches.partition_point(|reach| reach.from <= address);
    match begun.checked_sub(1) {
        Some(last) => reaches[last].end,
        None => 0,
    }
}
