use branch_stacks::{Counts, Reader};
use refusal::{Kind, Place, Stop};
use sample_model::Pair;
use std::test::Fail;

fn pair(from: u64, to: u64, times: u64) -> Pair {
    Pair { from, to, times }
}

const PIECES: [&[u8]; 4] = [b"0x1/0x2 0x3/", b"", b"0x4\n0x1/0x", b"2"];

#[test]
fn a_text_comes_in_pieces(rt: HostRuntime) -> Result<(), Fail> {
    let mut counts = Counts::new(rt.alloc())?;
    let mut reader = Reader::new(rt.alloc(), 2)?;
    for piece in PIECES {
        assert_eq!(rt; reader.feed(piece, &mut counts), Ok(()));
    }
    assert_eq!(rt; reader.finish(&mut counts), Ok(()));
    assert_eq!(rt;
        counts.branches(),
        [pair(1, 2, 2), pair(3, 4, 1)].as_slice()
    );
    assert_eq!(rt; counts.ranges(), [pair(4, 1, 1)].as_slice());
    Ok(())
}

/// A refusal of file 2.
fn refused<T>(at: u64, kind: Kind) -> Result<T, Stop> {
    Err(Stop::Refused(Place::on_line(2, at, kind)))
}

#[test]
fn a_bad_last_line_is_refused_each_time(rt: HostRuntime) -> Result<(), Fail> {
    let mut counts = Counts::new(rt.alloc())?;
    let mut reader = Reader::new(rt.alloc(), 2)?;
    assert_eq!(rt; reader.feed(b"zz", &mut counts), Ok(()));
    for _ in 0..2 {
        assert_eq!(rt; reader.finish(&mut counts), refused(1, Kind::BadLine));
    }
    assert_eq!(rt; counts.total(), 0);
    Ok(())
}

#[test]
fn what_follows_a_bad_line_is_not_counted(rt: HostRuntime) -> Result<(), Fail> {
    let mut counts = Counts::new(rt.alloc())?;
    let mut reader = Reader::new(rt.alloc(), 2)?;
    let bad = refused(2, Kind::BadLine);
    assert_eq!(rt; reader.feed(b"0x1/0x2\nzz\n0x5/0x6", &mut counts), bad);
    for piece in [b"".as_slice(), b"\n0x7/0x8\n"] {
        assert_eq!(rt; reader.feed(piece, &mut counts), bad);
    }
    assert_eq!(rt; reader.finish(&mut counts), bad);
    assert_eq!(rt; counts.branches(), [pair(1, 2, 1)].as_slice());
    Ok(())
}

#[test]
fn a_line_is_too_long_over_two_pieces(rt: HostRuntime) -> Result<(), Fail> {
    let mut counts = Counts::new(rt.alloc())?;
    let mut reader = Reader::new(rt.alloc(), 2)?;
    assert_eq!(rt; reader.feed(&[b' '; 65536], &mut counts), Ok(()));
    assert_eq!(rt; reader.feed(b" ", &mut counts), Ok(()));
    let bad = refused(1, Kind::LineTooLong);
    assert_eq!(rt; reader.finish(&mut counts), bad);
    assert_eq!(rt; reader.feed(b"\n0x1/0x2\n", &mut counts), bad);
    assert_eq!(rt; reader.finish(&mut counts), bad);
    assert_eq!(rt; counts.total(), 0);
    Ok(())
}
