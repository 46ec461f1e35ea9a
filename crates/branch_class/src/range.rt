ghost use Rattle.std.specs.Prelude.{◌≡◌};
ghost use Rattle.report_model.specs.Ranges.{range_class};
ghost use Rattle.branch_class.specs.Stretches.{class_of_stretches};

use key_types::Places;
use report_model::RangeClass;

/// The class of the range from `to`, the target of a branch, up to `from`, the source of the next
/// one, both held. No memory is taken.
pub fn classify_range<P: Places>(to: u64, from: u64, map: &P) -> RangeClass
    ensures { result ≡ range_class (P.function_of map.now) to from }
{
    if from < to {
        RangeClass::Reversed
    } else {
        class_of_stretches(map.stretch(to), map.stretch(from))
    }
}

/// The class of a range by the stretches of its ends: one function holds all of it exactly where
/// they are the same.
fn class_of_stretches(first: Option<u32>, last: Option<u32>) -> RangeClass
    ensures { result ≡ class_of_stretches first last }
{
    match (first, last) {
        (Some(first), Some(last)) if first == last => RangeClass::Ran,
        (Some(_), Some(_)) => RangeClass::Crossing,
        _ => RangeClass::RangeOutside,
    }
}
