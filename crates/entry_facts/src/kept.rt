ghost use Rattle.entry_facts.specs.Kept.{AddsKnown};

use indexmap::IndexMap;
use refusal::NoMemory;

/// Keeps something for an offset.
pub(crate) fn keep_at<V: Drop>(kept: &mut IndexMap<u64, V>, at: u64, it: V) -> Result<(), NoMemory>
    ensures { AddsKnown kept.old.entries kept.new.entries at it }
{
    match kept.insert(at, it) {
        Ok(_) => Ok(()),
        Err(_) => Err(NoMemory),
    }
}
