ghost use Rattle.std.specs.Prelude.{◌≡◌, ◌≤◌};

use range_counts::{RanRange, sweep};
use std::test;

const LAST: u64 = u64::MAX;

fn range(lo: u64, hi: u64, times: u64) -> RanRange
    requires { lo ≤ hi }
    ensures order { result.lo ≤ result.hi }
    ensures times { result.times ≡ times }
{
    RanRange { lo, hi, times }
}

#[test]
fn hits_are_sums_over_ranges(rt: HostRuntime) -> Result<(), test::Fail> {
    // Two that touch, one inside the first, the first once more, and one at either end of all
    // addresses.
    let ranges = [
        range(10, 19, 1),
        range(20, 29, 2),
        range(12, 15, 4),
        range(10, 19, 8),
        range(0, 0, 16),
        range(LAST, LAST, 32),
    ];
    let hits = sweep(rt.alloc(), &ranges)?;
    let cases = [
        (0, 16),
        (1, 0),
        (9, 0),
        (10, 9),
        (12, 13),
        (15, 13),
        (16, 9),
        (19, 9),
        (20, 2),
        (29, 2),
        (30, 0),
        (LAST - 1, 0),
        (LAST, 32),
    ];
    for (address, want) in cases {
        assert_eq!(rt; hits.at(address), want, "at {address}");
    }
    Ok(())
}
