use chain_model::Member;
use context_map::{Map, make};
use elf_sections::{Elf, read};
use item_lists::Items;
use key_types::{Frame, Keys, NameId, Places, Seg, Where};
use line_model::Row;
use refusal::{NoMemory, Stop};
use row_table::RowTable;
use std::alloc::Global;
use std::test::Fail;

// A file whose one segment is code from 0x1000 up to 0x2000.
const FILE: &[u8; 120] = b"\x7fELF\x02\x01\x01\0\0\0\0\0\0\0\0\0\
    \x02\0\x3e\0\x01\0\0\0\0\0\0\0\0\0\0\0\x40\0\0\0\0\0\0\0\0\0\0\0\0\0\0\0\
    \0\0\0\0\x40\0\x38\0\x01\0\x40\0\0\0\0\0\
    \x01\0\0\0\x05\0\0\0\0\0\0\0\0\0\0\0\0\x10\0\0\0\0\0\0\0\x10\0\0\0\0\0\0\
    \0\0\0\0\0\0\0\0\0\x10\0\0\0\0\0\0\0\x10\0\0\0\0\0\0";

fn row(address: u64, line: u32, disc: u32, ends: bool) -> Row {
    Row {
        address,
        line,
        disc,
        ends,
    }
}

fn member(
    alloc: Global,
    depth: u8,
    name: Option<u32>,
    start: u64,
    line: u64,
    pieces: &[(u64, u64)],
) -> Result<Member, NoMemory> {
    Ok(Member {
        depth,
        unit: 0,
        name: name.map(NameId),
        start,
        line,
        disc: 0,
        pieces: Items::new(Vec::from_slice(alloc, pieces)?),
    })
}

// A function in two pieces that is entered at the second, a call in it, and a nameless function.
fn members(alloc: Global) -> Result<Vec<Member>, NoMemory> {
    let mut members = Vec::new(alloc);
    members.push(member(
        alloc,
        0,
        Some(1),
        10,
        0,
        &[(0x1020, 0x1030), (0x1000, 0x1010)],
    )?)?;
    members.push(member(alloc, 1, Some(2), 5, 12, &[(0x1004, 0x1008)])?)?;
    members.push(member(alloc, 0, None, 3, 0, &[(0x1010, 0x1020)])?)?;
    Ok(members)
}

fn code(alloc: Global) -> Result<Elf<'static>, Stop> {
    read(alloc, FILE)
}

// The rows of the unit. Discriminator 17 has base 0 and factor 4. The second row says what the
// first does, and the last has no line.
fn tables(alloc: Global) -> Result<Vec<Option<RowTable>>, Fail> {
    let elf = code(alloc)?;
    let rows = [
        row(0x1000, 11, 17, false),
        row(0x1002, 11, 17, false),
        row(0x1006, 9, 2, false),
        row(0x1028, 0, 0, false),
        row(0x1030, 0, 0, true),
    ];
    let mut tables = Vec::new(alloc);
    tables.push(Some(RowTable::make(alloc, &rows, &elf)?))?;
    Ok(tables)
}

// The map of the members, with its keys.
fn made(alloc: Global) -> Result<(Map, Keys), Fail> {
    let tables = tables(alloc)?;
    let members = members(alloc)?;
    let mut keys = Keys::new(alloc)?;
    let map = make(alloc, &members, &tables, &mut keys, true)?;
    Ok((map, keys))
}

// What a map says of an address: whether it is nameless, whether it has a key, the number of its
// stretch, and the name of the function that is entered there.
fn told(map: &Map, address: u64) -> (bool, bool, Option<u32>, Option<NameId>) {
    let place = map.place(address);
    let nameless = place == Where::Nameless;
    let key = matches!(place, Where::At(_));
    (nameless, key, map.stretch(address), map.entry_name(address))
}

#[test]
fn addresses_have_places(rt: HostRuntime) -> Result<(), Fail> {
    let (map, _) = made(rt.alloc())?;
    let cases = [
        (0xfff, (false, false, None, None)),
        (0x1000, (false, true, Some(0), None)),
        (0x1010, (true, false, Some(1), None)),
        (0x1020, (false, true, Some(2), Some(NameId(1)))),
        (0x1028, (false, false, Some(2), None)),
        (0x1030, (false, false, None, None)),
    ];
    for (address, wanted) in cases {
        assert_eq!(rt; told(&map, address), wanted, "at {address:x}");
    }
    Ok(())
}

// What a segment's key says: its offset and its discriminator, and whether it stands in the call.
fn key_told(keys: &Keys, segment: &Seg) -> Option<(u16, u32, bool)> {
    if segment.key.0 >= keys.len() {
        return None;
    }
    let key = keys.get(segment.key);
    let call = Frame {
        name: NameId(2),
        offset: 2,
        disc: 0,
    };
    let inlined = key.calls.as_slice() == [call].as_slice();
    Some((key.offset, key.disc, inlined))
}

#[test]
fn segments_have_keys(rt: HostRuntime) -> Result<(), Fail> {
    let (map, keys) = made(rt.alloc())?;
    let parts = [
        (0x1000, 0x1004, 4, (1, 0, false)),
        (0x1004, 0x1006, 4, (6, 0, true)),
        (0x1006, 0x1008, 1, (4, 1, true)),
        (0x1008, 0x1010, 1, (65_535, 1, false)),
        (0x1020, 0x1028, 1, (65_535, 1, false)),
    ];
    assert_eq!(rt; map.segments().len(), parts.len());
    for (segment, (lo, hi, factor, key)) in map.segments().iter().zip(parts) {
        assert_eq!(rt; (segment.lo, segment.hi, segment.factor), (lo, hi, factor));
        assert_eq!(rt; key_told(&keys, segment), Some(key), "at {lo:x}");
    }
    Ok(())
}
