// What `counts` writes.
ghost use Rattle.std.specs.Prelude.{◌≡◌, ◌++◌, List, ℕ, IfOk, OnOk, None};
ghost use Rattle.sample_model.specs.Samples.{branches_of_lines};
ghost use Rattle.branch_counts.specs.Table.{pair_of};
ghost use Rattle.branch_counts.specs.Tally.{Tells};
ghost use Rattle.command_model.specs.Counts as model;

use branch_counts::Counts;
use refusal::NoMemory;
use sample_model::Pair;
use std::alloc::Global;
use text_scan::{push_hex, push_number};

/// What `counts` writes of what was counted of a branch text: the lines of the branches, by source
/// and then by target, and the line of their number.
///
/// # Errors
/// `NoMemory`.
pub fn counts_text(alloc: Global, counts: Counts) -> Result<Vec<u8>, NoMemory>
    ensures { IfOk result (λ out. (lines : List (List ℕ)) → Tells None lines counts →
        out.items ≡ model.counts_text (branches_of_lines lines)) }
{
    let total = counts.total();
    let rows = counts.into_sorted_branches()?;
    let mut out = Vec::new(alloc);
    for row in &rows {
        push_row(&mut out, row)?;
    }
    push_total(&mut out, total)?;
    Ok(out)
}

/// Appends the line of one row.
fn push_row(out: &mut Vec<u8>, row: &Pair) -> Result<(), NoMemory>
    ensures { OnOk result
        (out.new.items ≡ out.old.items ++ model.counts_line (pair_of row.now) row.now.times) }
{
    push_hex(out, row.from)?;
    out.push(b' ')?;
    push_hex(out, row.to)?;
    out.push(b' ')?;
    push_number(out, u128::from(row.times))?;
    out.push(b'\n')?;
    Ok(())
}

/// Appends the line of the number of branches.
fn push_total(out: &mut Vec<u8>, total: u64) -> Result<(), NoMemory>
    ensures { OnOk result (out.new.items ≡ out.old.items ++ model.total_line total) }
{
    out.extend_from_slice(b"# branches ")?;
    push_number(out, u128::from(total))?;
    out.push(b'\n')?;
    Ok(())
}
