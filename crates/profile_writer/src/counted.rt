// What classed branches and ranges count: calls, entries, and how often addresses ran.
ghost use Rattle.std.specs.Prelude.{◌≡◌, IfOk};
ghost use Rattle.std.specs.List.{filter_map};
ghost use Rattle.profile_writer.specs.Items.{call_in, head_in, ran_in};

use branch_class::{Class, RangeClass};
use key_types::{Places, Where};
use profile_report::Classed;
use profile_tree::{Call, Head};
use range_counts::RanRange;
use refusal::NoMemory;
use std::alloc::Global;

/// The calls of functions from places with a key, one for each branch.
pub(crate) fn calls_of<P: Places>(
    alloc: Global,
    branches: &[Classed<Class>],
    places: &P,
) -> Result<Vec<Call>, NoMemory>
    ensures { IfOk result (λ calls.
        calls.items ≡ filter_map (call_in (P.place_of places.now)) branches.now) }
{
    let calls = branches.iter().filter_map(|branch| call_of(branch, places));
    Ok(calls.collect(alloc)?)
}

/// The call that a branch is, where it enters a function and comes from a key.
fn call_of<P: Places>(branch: &Classed<Class>, places: &P) -> Option<Call>
    ensures { result ≡ call_in (P.place_of places.now) branch.now }
{
    let times = branch.row.times;
    match (places.place(branch.row.from), branch.class) {
        (Where::At(key), Class::Entry(callee)) => Some(Call { key, callee, times }),
        _ => None,
    }
}

/// The entries of functions, one for each branch.
pub(crate) fn heads_of(alloc: Global, branches: &[Classed<Class>]) -> Result<Vec<Head>, NoMemory>
    ensures { IfOk result (λ heads. heads.items ≡ filter_map head_in branches.now) }
{
    let heads = branches.iter().filter_map(|branch| head_of(branch));
    Ok(heads.collect(alloc)?)
}

/// The entry that a branch is, where it enters a function.
fn head_of(branch: &Classed<Class>) -> Option<Head>
    ensures { result ≡ head_in branch.now }
{
    let times = branch.row.times;
    match branch.class {
        Class::Entry(name) => Some(Head { name, times }),
        Class::Inside | Class::Unmapped(_) => None,
    }
}

/// The ranges that ran.
pub(crate) fn ran_of(
    alloc: Global,
    ranges: &[Classed<RangeClass>],
) -> Result<Vec<RanRange>, NoMemory>
    ensures { IfOk result (λ ran. ran.items ≡ filter_map ran_in ranges.now) }
{
    let ran = ranges.iter().filter_map(|range| ran_range(range));
    Ok(ran.collect(alloc)?)
}

/// A sampled range, where it ran.
fn ran_range(range: &Classed<RangeClass>) -> Option<RanRange>
    ensures { result ≡ ran_in range.now }
{
    match range.class {
        RangeClass::Ran => Some(RanRange {
            lo: range.row.from,
            hi: range.row.to,
            times: range.row.times,
        }),
        RangeClass::Reversed | RangeClass::RangeOutside | RangeClass::Crossing => None,
    }
}
