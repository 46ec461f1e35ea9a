use chain_model::Member;
use context_map::{Context, context_of, parents};
use item_lists::Items;
use key_types::{Frame, NameId};
use refusal::NoMemory;
use std::alloc::Global;
use std::test;

fn member(depth: u8, name: Option<u32>, start: u64, line: u64, disc: u32, alloc: Global) -> Member {
    Member {
        depth,
        unit: 3,
        name: name.map(NameId),
        start,
        line,
        disc,
        pieces: Items::new(Vec::new(alloc)),
    }
}

// A function with a call in a call, a second call without a name, and a second function.
fn members(alloc: Global) -> Result<Vec<Member>, NoMemory> {
    let mut members = Vec::new(alloc);
    members.push(member(0, Some(1), 10, 0, 0, alloc))?;
    members.push(member(1, Some(2), 70_000, 12, 2, alloc))?;
    members.push(member(2, Some(3), 5, 70_001, 17, alloc))?;
    members.push(member(1, None, 5, 9, 0, alloc))?;
    members.push(member(0, Some(5), 8, 0, 0, alloc))?;
    Ok(members)
}

const OUTER: Frame = Frame {
    name: NameId(2),
    offset: 2,
    disc: 2,
};

const INNER: Frame = Frame {
    name: NameId(3),
    offset: 1,
    disc: 17,
};

// The context of the member of a number, if there is one.
fn context(alloc: Global, number: usize) -> Result<Option<Context>, NoMemory> {
    let members = members(alloc)?;
    let parents = parents(alloc, &members)?;
    if number >= members.len() {
        return Ok(None);
    }
    let made = context_of(alloc, &members, &parents, number, false)?;
    Ok(Some(made))
}

// The line that lines are counted from, and the frames.
fn told(context: &Context) -> Option<(u64, &[Frame])> {
    match &context.named {
        Some(named) => Some((named.start, named.calls.as_slice())),
        None => None,
    }
}

#[test]
fn calls_have_frames(rt: HostRuntime) -> Result<(), test::Fail> {
    // A member's number, that of its function, the line that lines are counted from, its frames.
    let cases: [(usize, usize, Option<(u64, &[Frame])>); 5] = [
        (0, 0, Some((10, &[]))),
        (1, 0, Some((70_000, &[OUTER]))),
        (2, 0, Some((5, &[OUTER, INNER]))),
        (3, 0, None),
        (4, 4, Some((8, &[]))),
    ];
    for (number, function, wanted) in cases {
        let Some(made) = context(rt.alloc(), number)? else {
            panic!(rt; "no member");
        };
        assert_eq!(rt; made.function, function);
        assert_eq!(rt; told(&made), wanted);
    }
    assert!(rt; context(rt.alloc(), cases.len())?.is_none());
    Ok(())
}
