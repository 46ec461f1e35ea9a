// The rows of two keys that share a call, and ways that are equal up to a later part.
use profile_lists::{Item, Kind, Row, Step, rows_of, sort_items};
use refusal::NoMemory;
use std::alloc::{AllocError, Global};

const F: Step = Step {
    kind: Kind::Function,
    offset: 0,
    disc: 0,
    rank: 0,
};

const G: Step = Step {
    kind: Kind::Call,
    offset: 5,
    disc: 0,
    rank: 1,
};

const TOP: Step = Step {
    kind: Kind::Body,
    offset: 7,
    disc: 0,
    rank: 0,
};

const LOW: Step = Step {
    kind: Kind::Body,
    offset: 1,
    disc: 0,
    rank: 0,
};

const HIGH: Step = Step {
    kind: Kind::Body,
    offset: 2,
    disc: 0,
    rank: 0,
};

fn item(alloc: Global, way: &[Step], count: u64, key: u32) -> Result<Item, AllocError> {
    Ok(Item {
        way: Vec::from_slice(alloc, way)?,
        count,
        key,
    })
}

fn rows(alloc: Global) -> Result<Vec<Row>, NoMemory> {
    let mut items = Vec::new(alloc);
    items.push(item(alloc, &[F, G, HIGH], 3, 0)?)?;
    items.push(item(alloc, &[F, TOP], 2, 1)?)?;
    items.push(item(alloc, &[F, G, LOW], u64::MAX, 2)?)?;
    sort_items(&mut items)?;
    rows_of(alloc, &items)
}

fn row(depth: usize, step: Step, total: u64, count: u64, key: u32) -> Row {
    Row {
        depth,
        step,
        total,
        count,
        key,
    }
}

#[test]
fn a_call_has_the_total_of_its_lines(rt: HostRuntime) {
    let expected = [
        row(0, F, u64::MAX, 2, 1),
        row(1, TOP, 2, 2, 1),
        row(1, G, u64::MAX, u64::MAX, 2),
        row(2, LOW, u64::MAX, u64::MAX, 2),
        row(2, HIGH, 3, 3, 0),
    ];
    assert_eq!(rt; rows(rt.alloc()).ok().as_deref(), Some(expected.as_slice()));
}

fn step(kind: Kind, offset: u16, disc: u32, rank: u32) -> Step {
    Step {
        kind,
        offset,
        disc,
        rank,
    }
}

// The keys of lines and calls of one function, in the order of their ways.
fn keys_in_order(alloc: Global) -> Result<Vec<u32>, AllocError> {
    let steps = [
        step(Kind::Call, 5, 0, 2),
        step(Kind::Call, 5, 0, 1),
        step(Kind::Call, 5, 2, 0),
        step(Kind::Body, 7, 3, 0),
        step(Kind::Body, 7, 1, 0),
        step(Kind::Body, 8, 0, 0),
    ];
    let mut items = Vec::new(alloc);
    for (key, step) in steps.iter().enumerate() {
        items.push(item(alloc, &[F, *step, LOW], 1, key as u32)?)?;
    }
    sort_items(&mut items)?;
    items.iter().map(|item| item.key).collect(alloc)
}

#[test]
fn equal_offsets_go_by_discriminator_and_then_by_name(rt: HostRuntime) {
    let expected = [4, 3, 5, 1, 0, 2];
    let made = keys_in_order(rt.alloc()).ok();
    assert_eq!(rt; made.as_deref(), Some(expected.as_slice()));
}
