ghost use Rattle.std.specs.Prelude.{◌≡◌};

use block_weights::{SegmentCounts, weights};
use cfg_text::{Block, Bound, Fun, Weight};
use item_lists::Items;
use key_types::{KeyId, Seg};
use std::test;

fn block(lo: u64, hi: u64) -> Block {
    Block {
        lo,
        hi,
        exit: false,
        bound: Bound {
            lower: 0,
            upper: None,
        },
    }
}

fn segment(lo: u64, hi: u64, key: u32) -> Seg
    ensures lo { result.lo ≡ lo }
    ensures hi { result.hi ≡ hi }
{
    Seg {
        lo,
        hi,
        key: KeyId(key),
        factor: 1,
    }
}

#[test]
fn a_block_has_the_largest_count_in_it(rt: HostRuntime) -> Result<(), test::Fail> {
    let alloc = rt.alloc();
    let segments = [
        segment(10, 20, 0),
        segment(20, 30, 1),
        segment(40, 50, 2),
        segment(60, 70, 7),
    ];
    // Two segments, a part of one, a hole, a hole between two, a key without a count, no address.
    let blocks = [
        block(5, 25),
        block(15, 20),
        block(30, 40),
        block(29, 41),
        block(60, 61),
        block(45, 45),
    ];
    let fun = Fun {
        name: b"f",
        blocks: Items::new(Vec::from_slice(alloc, &blocks)?),
        edges: Items::new(Vec::new(alloc)),
    };
    let counted = SegmentCounts::new(alloc, &segments, &[3, 5, 4])?;
    let made = weights(alloc, &fun, &counted)?;
    let want = [
        Weight::Known(5),
        Weight::Known(3),
        Weight::Unknown,
        Weight::Known(5),
        Weight::Known(0),
        Weight::Unknown,
    ];
    assert_eq!(rt; made.as_slice(), want.as_slice());
    Ok(())
}
