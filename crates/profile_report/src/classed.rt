// Rows of a table, each with the class of its pair.
ghost use Rattle.std.specs.Prelude.{◌≡◌, map, IfOk};
ghost use Rattle.report_model.specs.Branches.{branch_class};
ghost use Rattle.report_model.specs.Ranges.{range_class};
ghost use Rattle.profile_report.specs.Classed.{classed_by};

use branch_class::{Class, RangeClass, classify, classify_range};
use key_types::Places;
use refusal::NoMemory;
use sample_model::Pair;
use std::alloc::Global;

/// A distinct branch or sampled range with how often it stands, and what it is.
#[derive(Clone, Copy, Debug, PartialEq, Eq)]
pub struct Classed<C> {
    pub row: Pair,
    pub class: C,
}

/// What each of these branches is, in their order.
///
/// # Errors
/// `NoMemory`.
pub fn class_branches<P: Places>(
    alloc: Global,
    branches: &[Pair],
    places: &P,
) -> Result<Vec<Classed<Class>>, NoMemory>
    ensures { IfOk result (λ made. made.items ≡ map
        (classed_by (branch_class (P.place_of places.now) (P.entry_name_of places.now)))
        branches.now) }
{
    let made = branches.iter().map(|row| class_branch(row, places));
    Ok(made.collect(alloc)?)
}

/// A branch with its class.
fn class_branch<P: Places>(row: &Pair, places: &P) -> Classed<Class>
    ensures { result ≡ classed_by
        (branch_class (P.place_of places.now) (P.entry_name_of places.now)) row.now }
{
    Classed {
        row: *row,
        class: classify(row.from, row.to, places),
    }
}

/// What each of these sampled ranges is, in their order. `from` is where a range begins, and `to`
/// where it ends.
///
/// # Errors
/// `NoMemory`.
pub fn class_ranges<P: Places>(
    alloc: Global,
    ranges: &[Pair],
    places: &P,
) -> Result<Vec<Classed<RangeClass>>, NoMemory>
    ensures { IfOk result (λ made. made.items ≡ map
        (classed_by (range_class (P.function_of places.now))) ranges.now) }
{
    let made = ranges.iter().map(|row| class_range(row, places));
    Ok(made.collect(alloc)?)
}

/// A range with its class.
fn class_range<P: Places>(row: &Pair, places: &P) -> Classed<RangeClass>
    ensures { result ≡ classed_by (range_class (P.function_of places.now)) row.now }
{
    Classed {
        row: *row,
        class: classify_range(row.from, row.to, places),
    }
}
