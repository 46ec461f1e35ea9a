// The keys of which a text tells the count 0.
ghost use Rattle.std.specs.Prelude.{◌≡◌, IfOk};
ghost use Rattle.std.specs.List.{filter_map};
ghost use Rattle.cold_maker.specs.Besides.{cold_in};

use key_types::KeyId;
use profile_text::{Item, What};
use refusal::NoMemory;
use std::alloc::Global;

/// The keys with count 0, in the order of the numbers.
pub(crate) fn told_cold(alloc: Global, items: &[Item]) -> Result<Vec<KeyId>, NoMemory>
    ensures { IfOk result (λ told. told.items ≡ filter_map cold_in items.now) }
{
    let told = items.iter().filter_map(|item| cold_of(item));
    Ok(told.collect(alloc)?)
}

/// The key that a number tells the count of, if that is 0.
fn cold_of(item: &Item) -> Option<KeyId>
    ensures { result ≡ cold_in item.now }
{
    match item.what {
        What::Count(key) if item.times == 0 => Some(key),
        What::Count(_) | What::Head(_) | What::Target(_, _) => None,
    }
}
