ghost use Rattle.std.specs.Prelude.{◌≡◌, [], IfOk};
ghost use Rattle.entry_facts.specs.Lists.{no_lists};
ghost use Rattle.entry_facts.specs.Memo.{nothing_kept};
ghost use Rattle.member_lists.specs.Frames.{nothing};

use entry_facts::{Lists, Origins};
use key_types::Names;
use member_lists::SoFar;
use refusal::NoMemory;
use std::alloc::Global;

/// What the entries so far come to: the names by their numbers, the origins and the range
/// lists that are kept for entries to come, and the functions with their calls.
#[derive(Drop)]
pub(crate) struct Collected<'a> {
    pub names: Names<'a>,
    pub origins: Origins,
    pub lists: Lists,
    pub members: SoFar,
}

impl<'a> Collected<'a> {
    /// Of no entries.
    pub fn new(alloc: Global) -> Result<Collected<'a>, NoMemory>
        ensures names { IfOk result (λ none. none.names ≡ []) }
        ensures origins { IfOk result (λ none. none.origins ≡ nothing_kept) }
        ensures lists { IfOk result (λ none. none.lists ≡ no_lists) }
        ensures members { IfOk result (λ none. none.members ≡ nothing) }
    {
        Ok(Collected {
            names: Names::new(alloc)?,
            origins: Origins::new(alloc),
            lists: Lists::new(alloc),
            members: SoFar::new(alloc),
        })
    }
}
