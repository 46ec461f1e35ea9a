ghost use Rattle.std.specs.Prelude.{IfOk};
ghost use Rattle.context_map.specs.Paths.{AreParents};

use chain_model::Member;
use refusal::NoMemory;
use std::alloc::Global;

/// For each member the number of the one that it stands below, if it stands below one.
///
/// # Errors
/// `NoMemory`.
pub fn parents(alloc: Global, members: &[Member]) -> Result<Vec<Option<usize>>, NoMemory>
    ensures { IfOk result (λ made. AreParents members.now made.items) }
{
    let mut path: Vec<usize> = Vec::new(alloc);
    let mut parents = Vec::new(alloc);
    for (number, member) in members.iter().enumerate() {
        path.truncate(usize::from(member.depth));
        parents.push(path.last().copied())?;
        path.push(number)?;
    }
    Ok(parents)
}
