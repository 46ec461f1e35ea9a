use branch_counts::{Counts, CountsStop};
use sample_model::Pair;
use std::test::Fail;

fn pair(from: u64, to: u64, times: u64) -> Pair {
    Pair { from, to, times }
}

#[test]
fn a_stack_counts_the_ranges_between_its_neighbours(rt: HostRuntime) -> Result<(), Fail> {
    let mut counts = Counts::new(rt.alloc())?;
    assert_eq!(rt; counts.add_stack(&[(1, 2), (3, 4), (1, 2), (3, 4)]), Ok(()));
    assert_eq!(rt;
        counts.branches(),
        [pair(1, 2, 2), pair(3, 4, 2)].as_slice()
    );
    assert_eq!(rt; counts.ranges(), [pair(4, 1, 2), pair(2, 3, 1)].as_slice());
    Ok(())
}

#[test]
fn branches_are_counted_one_by_one(rt: HostRuntime) -> Result<(), Fail> {
    let mut counts = Counts::new(rt.alloc())?;
    for (from, to, times) in [(1, 2, 3), (3, 4, 1), (1, 2, 2)] {
        assert_eq!(rt; counts.add_branch(from, to, times), Ok(()));
    }
    assert_eq!(rt;
        counts.branches(),
        [pair(1, 2, 5), pair(3, 4, 1)].as_slice()
    );
    assert_eq!(rt; counts.total(), 6);
    assert_eq!(rt; counts.ranges(), [].as_slice());
    Ok(())
}

#[test]
fn one_branch_past_the_limit_is_too_many(rt: HostRuntime) -> Result<(), Fail> {
    let mut counts = Counts::new(rt.alloc())?;
    assert_eq!(rt; counts.add_branch(1, 2, 4294967295), Ok(()));
    for (from, to) in [(1, 2), (3, 4)] {
        assert_eq!(rt; counts.add_branch(from, to, 1), Err(CountsStop::TooMany));
        assert_eq!(rt; counts.add_stack(&[(from, to)]), Err(CountsStop::TooMany));
        assert_eq!(rt; counts.branches(), [pair(1, 2, 4294967295)].as_slice());
        assert_eq!(rt; counts.total(), 4294967295);
    }
    Ok(())
}

/// Of ten branches each is counted, or leaves the counts as they were where memory is refused.
#[test]
fn refused_memory_leaves_the_counts_as_they_were(rt: HostRuntime) {
    let Ok(mut counts) = Counts::new(rt.alloc()) else {
        return;
    };
    for from in 0..10 {
        let total = counts.total();
        let rows = counts.branches().len();
        let added = counts.add_branch(from, 1, 7);
        if added.is_ok() {
            assert_eq!(rt;
                (counts.total(), counts.branches().len()),
                (total + 7, rows + 1)
            );
        } else {
            assert_eq!(rt; added, Err(CountsStop::NoMemory));
            assert_eq!(rt; (counts.total(), counts.branches().len()), (total, rows));
        }
    }
}
