use address_spans::Span;
use chain_model::Member;
use item_lists::Items;
use refusal::NoMemory;
use span_cover::cover;
use std::alloc::Global;
use std::test;

/// A member of this depth with these pieces.
fn member(alloc: Global, depth: u8, pieces: &[(u64, u64)]) -> Result<Member, NoMemory> {
    Ok(Member {
        depth,
        unit: 0,
        name: None,
        start: 0,
        line: 0,
        disc: 0,
        pieces: Items::new(Vec::from_slice(alloc, pieces)?),
    })
}

/// Two functions over one another. In the first a call with two calls, then one over parts of it;
/// the second of the inner calls reaches behind the call around it.
fn overlapping(alloc: Global) -> Result<Vec<Member>, NoMemory> {
    let mut members = Vec::new(alloc);
    let rows: [(u8, &[(u64, u64)]); 7] = [
        (0, &[(100, 200)]),
        (1, &[(110, 150)]),
        (2, &[(120, 130)]),
        (2, &[(125, 145), (148, 155)]),
        (1, &[(140, 160)]),
        (0, &[(50, 120)]),
        (1, &[(90, 110)]),
    ];
    for (depth, pieces) in rows {
        members.push(member(alloc, depth, pieces)?)?;
    }
    Ok(members)
}

fn span(lo: u64, hi: u64, owner: usize) -> Span {
    Span { lo, hi, owner }
}

#[test]
fn the_innermost_member_owns(rt: HostRuntime) -> Result<(), test::Fail> {
    let alloc = rt.alloc();
    let made = cover(alloc, &overlapping(alloc)?)?;
    let want = [
        span(50, 90, 5),
        span(90, 100, 6),
        span(100, 110, 0),
        span(110, 120, 1),
        span(120, 130, 2),
        span(130, 145, 3),
        span(145, 148, 1),
        span(148, 150, 3),
        span(150, 160, 4),
        span(160, 200, 0),
    ];
    assert_eq!(rt; made.as_slice(), want.as_slice());
    Ok(())
}
