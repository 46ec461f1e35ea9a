ghost use Rattle.std.specs.Prelude.{IfOk, ◌++◌, ◌≡◌, OnOk, vec_len, map};
ghost use Rattle.std.specs.List.{flat_map};
ghost use Rattle.std.specs.List.Sorted.{IsPermutation, IsSorted};
ghost use Rattle.std.specs.Ordering.{nat_cmp};
ghost use Rattle.line_model.specs.Rows.{addresses_of};
ghost use Rattle.row_table.specs.Index.{HaveAddresses};

use crate::sequence::Sequence;
use refusal::NoMemory;
use std::alloc::Global;

/// The addresses of the rows and ends of some sequences, ascending, each once.
pub(crate) fn cuts_of(alloc: Global, sequences: &[Sequence]) -> Result<Vec<u64>, NoMemory>
    ensures { IfOk result (λ cuts. HaveAddresses sequences.now cuts.items) }
{
    let mut addresses = all_addresses(alloc, sequences)?;
    sort(&mut addresses);
    addresses.dedup();
    Ok(addresses)
}

/// Brings addresses into order. Those of most binaries are in order, which one look tells.
fn sort(addresses: &mut Vec<u64>)
    ensures permuted { IsPermutation addresses.old.items addresses.new.items }
    ensures sorted { IsSorted nat_cmp addresses.new.items }
{
    if !addresses.is_sorted() {
        addresses.sort_unstable();
    }
}

/// The addresses of the rows and ends of some sequences, in their order.
fn all_addresses(alloc: Global, sequences: &[Sequence]) -> Result<Vec<u64>, NoMemory>
    ensures { IfOk result (λ addresses. addresses.items ≡ flat_map addresses_of sequences.now) }
{
    let mut addresses = Vec::new(alloc);
    for sequence in sequences {
        push_addresses(&mut addresses, sequence)?;
    }
    Ok(addresses)
}

/// Appends the addresses of a sequence's rows and its end.
fn push_addresses(addresses: &mut Vec<u64>, sequence: &Sequence) -> Result<(), NoMemory>
    ensures { OnOk result
        (addresses.new.items ≡ addresses.old.items ++ addresses_of sequence.now) }
{
    for row in &sequence.rows {
        addresses.push(row.address)?;
    }
    addresses.push(sequence.end.address)?;
    Ok(())
}
