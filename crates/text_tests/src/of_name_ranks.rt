// The ranks of four names, one of which begins another.
use key_types::Names;
use profile_lists::{Ranks, ranks_of};
use refusal::NoMemory;
use std::alloc::Global;

fn ranks(alloc: Global, weights: &[u64]) -> Result<Ranks, NoMemory> {
    let mut names = Names::new(alloc)?;
    names.add(b"main")?;
    names.add(b"f")?;
    names.add(b"fo")?;
    let last = names.add(b"a")?;
    let known = weights.len().min(last.0 as usize + 1);
    ranks_of(alloc, &names, &weights[..known])
}

#[test]
fn weights_go_before_names_and_names_by_bytes(rt: HostRuntime) {
    let made = ranks(rt.alloc(), &[1, 2, 2, 2]).ok();
    let ids = made.as_ref().map(|ranks| ranks.ids.as_slice());
    assert_eq!(rt; ids, Some([0, 3, 1, 2].as_slice()));
}
