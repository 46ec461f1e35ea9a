ghost use Rattle.std.specs.Prelude.{◌≡◌, map, IfOk};
ghost use Rattle.context_map.specs.Maps.{entrance_of};

use chain_model::Member;
use key_types::NameId;
use refusal::NoMemory;
use std::alloc::Global;

/// Where a function is entered, and its name.
#[derive(Clone, Copy, Debug, PartialEq, Eq)]
pub struct Entrance {
    /// The first address of its first piece.
    pub address: u64,
    /// None, too, where it has no piece.
    pub name: Option<NameId>,
}

/// The entrance of each member.
pub(crate) fn entrances_of(alloc: Global, members: &[Member]) -> Result<Vec<Entrance>, NoMemory>
    ensures { IfOk result (λ made. made.items ≡ map entrance_of members.now) }
{
    let mut made = Vec::new(alloc);
    for member in members {
        made.push(entrance_of(member))?;
    }
    Ok(made)
}

/// The entrance of a member.
fn entrance_of(member: &Member) -> Entrance
    ensures { result ≡ entrance_of member.now }
{
    match member.pieces.as_slice().first() {
        Some((address, _)) => Entrance {
            address: *address,
            name: member.name,
        },
        None => Entrance {
            address: 0,
            name: None,
        },
    }
}
