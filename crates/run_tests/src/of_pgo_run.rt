// What clauses leave open: that good files give an output and no `NoMemory`, that a bad line is
// refused before the text was read to its end, and that time is no more than files' sizes ask for.
// What is written of many more words and files is in checks/gate/program.
ghost use Rattle.std.specs.Prelude.{◌<◌};

use case_maker::{CasePart, CaseStop, make};
use io_edge::{Fail, MemoryInputs, MemorySink, StoredFile};
use item_lists::Items;
use memchr::memchr;
use pgo_run::{Status, run};
use refusal::{Kind, NoMemory, Place};
use std::alloc::{AllocError, Global};
use std::test;
use text_scan::{Lines, push_hex};

// Two samples with five branches, of which one was taken twice: 144 bytes.
const TEXT: &[u8] =
    b"401036 0x401038/0x401036/P/-/-/1 0x40100c/0x401020/P/-/-/1 0x401034/0x401000/P/-/-/1\n\
401036 0x401038/0x401036/P/-/-/1 0x401004/0x401010/P/-/-/1\n";

// What `counts` writes for them: 93 bytes.
const COUNTS: &[u8] =
    b"0x401004 0x401010 1\n0x40100c 0x401020 1\n0x401034 0x401000 1\n0x401038 0x401036 2\n\
    # branches 5\n";

// What `profile` writes for them and the generated binary of one function: 195 bytes.
const PROFILE: &[u8] = b"f0000:7:1\n 0: 1\n 1: 1\n 2.2: 2\n 3: 2 f0000:1\n 2.1: g:1\n  1: 1\n\
# branches 5\n# entries 1\n# inside 4\n# ranges ran 3\n# ranges reversed 0\n# ranges outside 0\n\
# ranges crossing 0\n# units read 1 passed 0\n";

// The words for it.
const WORDS: &[&[u8]] = &[b"profile", b"bin", b"perf"];

// The first of the two samples, and the generated block text of one function: 85 and 160 bytes.
const SAMPLE: &[u8] =
    b"401036 0x401038/0x401036/P/-/-/1 0x40100c/0x401020/P/-/-/1 0x401034/0x401000/P/-/-/1\n";

const BLOCKS: &[u8] = b"func f0000\nblock 0 0x401000 0x401008\nblock 1 0x401008 0x401010\n\
block 2 0x401010 0x401020\nblock 3 0x401020 0x401040 exit\nedge 0 1\nedge 0 2\nedge 1 3\nedge 2 3\n\
end\n";

// The words for a repair of that function.
const BUILD: &[&[u8]] = &[b"build", b"bin", b"perf", b"cfg"];

// Two blocks that go on at one another, and what shows that no counts repair five samples of the
// first: 84 and 92 bytes.
const LOOP: &[u8] = b"func loop\nblock 0 0x401000 0x401008\nblock 1 0x401008 0x401010\n\
edge 0 1\nedge 1 0\nend\n";

const CUT: &[u8] = b"# function loop cut 0\n# block 0 weight 5 in 1 out 1\n\
# block 1 weight 0 in 1 out 1\n# end 1 0\n";

// The words that test it.
const CHECK: &[&[u8]] = &[b"check", b"loop", b"cut"];

// The repair that `build` writes for the first sample: 258 bytes.
const REPAIR: &[u8] = b"# function f0000 flow\n# block 0 weight 1 count 1 in 0 out 0\n\
# block 1 weight 1 count 1 in 0 out 0\n# block 2 weight 0 count 0 in 0 out 0\n\
# block 3 weight 1 count 1 in 0 out 0\n# edge 0 1 count 1\n# edge 0 2 count 0\n\
# edge 1 3 count 1\n# edge 2 3 count 0\n# end 0\n";

// The words for a profile of it, in the place of a branch text.
const LIFT: &[&[u8]] = &[b"lift", b"bin", b"cfg", b"perf"];

// The words for eight profiles that are merged, and for what one comes to, in that place too.
const MERGE: &[&[u8]] = &[
    b"merge", b"1", b"perf", b"2", b"perf", b"3", b"perf", b"4", b"perf", b"5", b"perf", b"6",
    b"perf", b"7", b"perf", b"8", b"perf",
];

const TOTALS: &[&[u8]] = &[b"summary", b"perf"];

// The words for a summary.
const SUM: &[&[u8]] = &[b"make", b"1", b"sum"];

// What `make 1 sum` writes.
const SUMMARY: &[u8] = b"functions 1 branches 5 total 7 cost 40 cuts 0\n";

// The commands, each with what stands in the file `perf`.
const COMMANDS: [(&[&[u8]], &[u8]); 9] = [
    (&[b"counts", b"perf"], SAMPLE),
    (&[b"where", b"bin", b"401014"], b""),
    (WORDS, SAMPLE),
    (BUILD, SAMPLE),
    (CHECK, b""),
    (SUM, b""),
    (LIFT, REPAIR),
    (MERGE, PROFILE),
    (TOTALS, PROFILE),
];

// How files are read and an output is written: in pieces, and with calls that fail.
#[derive(Clone, Copy)]
struct Pieces {
    read: usize,
    room: usize,
    fail_read: Fail,
    fail_write: u64,
}

// Small pieces, of which these fail.
fn failing(file: u64, call: u64, fail_write: u64) -> Pieces
    ensures { 0 < result.read }
{
    Pieces {
        read: 64,
        room: 1000,
        fail_read: Fail { file, call },
        fail_write,
    }
}

fn file(alloc: Global, name: &[u8], bytes: &[u8]) -> Result<StoredFile, AllocError> {
    Ok(StoredFile {
        name: Items::new(name.to_vec(alloc)?),
        bytes: Items::new(bytes.to_vec(alloc)?),
    })
}

fn words_of(alloc: Global, texts: &[&[u8]]) -> Result<Vec<Vec<u8>>, AllocError> {
    let mut words = Vec::new(alloc);
    for text in texts {
        words.push(text.to_vec(alloc)?)?;
    }
    Ok(words)
}

fn inputs_of(
    alloc: Global,
    bin: &[u8],
    perf: &[u8],
    how: &Pieces,
) -> Result<MemoryInputs, AllocError>
    requires { 0 < how.now.read }
{
    let files = vec![in alloc;
        file(alloc, b"bin", bin)?,
        file(alloc, b"perf", perf)?,
        file(alloc, b"cfg", BLOCKS)?,
        file(alloc, b"loop", LOOP)?,
        file(alloc, b"cut", CUT)?,
    ]?;
    let fail = vec![in alloc; how.fail_read]?;
    Ok(MemoryInputs::new(files, how.read, fail))
}

// What words answer over the files `bin` and `perf` beside those that are the same in each run, and
// what is written.
fn answer(
    alloc: Global,
    texts: &[&[u8]],
    bin: &[u8],
    perf: &[u8],
    how: &Pieces,
) -> Result<(Status, Vec<u8>), NoMemory>
    requires { 0 < how.now.read }
{
    let words = words_of(alloc, texts)?;
    let mut inputs = inputs_of(alloc, bin, perf, how)?;
    let fail = vec![in alloc; how.fail_write]?;
    let mut out = MemorySink::new(alloc, how.room, 16, fail)?;
    let status = run(alloc, &words, &mut inputs, &mut out);
    Ok((status, out.written().to_vec(alloc)?))
}

// The generated binary of so many functions.
fn binary(alloc: Global, functions: u64) -> Result<Vec<u8>, CaseStop> {
    let mut bytes = Vec::new(alloc);
    make(functions, CasePart::Bin, &mut bytes)?;
    Ok(bytes)
}

#[test]
fn good_words_are_done(rt: HostRuntime) -> Result<(), test::Fail> {
    let alloc = rt.alloc();
    let bin = binary(alloc, 1)?;
    let cases: [(&[&[u8]], &[u8]); 4] = [
        (&[b"counts", b"perf"], COUNTS),
        (&[b"where", b"bin", b"401014"], b"f0000 2.1 g 1\n"),
        (WORDS, PROFILE),
        (SUM, SUMMARY),
    ];
    for (texts, want) in cases {
        let (status, written) = answer(alloc, texts, &bin, TEXT, &failing(0, 0, 99))?;
        assert_eq!(rt; (status, written.as_slice()), (Status::Done, want));
    }
    Ok(())
}

#[test]
fn each_failing_read_is_told(rt: HostRuntime) -> Result<(), test::Fail> {
    let alloc = rt.alloc();
    let bin = binary(alloc, 1)?;
    // Call 0 opens a file, and the last one finds its end. Between them the 655 bytes of the binary
    // take eleven reads, the 258 of the repair five, the 195 of the profile four, the 144 of both
    // samples and the 160 of the blocks three, and the others two.
    let cases: [(&[&[u8]], &[u8], u8, u64); 21] = [
        (&[b"counts", b"perf"], TEXT, 1, 5),
        (&[b"where", b"bin", b"401014"], b"", 1, 13),
        (WORDS, TEXT, 1, 13),
        (WORDS, TEXT, 2, 5),
        (BUILD, SAMPLE, 1, 13),
        (BUILD, SAMPLE, 2, 4),
        (BUILD, SAMPLE, 3, 5),
        (CHECK, b"", 1, 4),
        (CHECK, b"", 2, 4),
        (LIFT, REPAIR, 1, 13),
        (LIFT, REPAIR, 2, 5),
        (LIFT, REPAIR, 3, 7),
        (MERGE, PROFILE, 1, 6),
        (MERGE, PROFILE, 2, 6),
        (MERGE, PROFILE, 3, 6),
        (MERGE, PROFILE, 4, 6),
        (MERGE, PROFILE, 5, 6),
        (MERGE, PROFILE, 6, 6),
        (MERGE, PROFILE, 7, 6),
        (MERGE, PROFILE, 8, 6),
        (TOTALS, PROFILE, 1, 6),
    ];
    for (words, perf, number, calls) in cases {
        for call in 0..calls + 2 {
            let how = failing(u64::from(number), call, 99);
            let (status, written) = answer(alloc, words, &bin, perf, &how)?;
            let fault = call < calls;
            let want = if fault {
                Status::ReadFault(number)
            } else {
                Status::Done
            };
            assert_eq!(rt; status, want, "call {call} of file {number}");
            assert_eq!(rt; written.is_empty(), fault, "call {call} of file {number}");
        }
    }
    Ok(())
}

/// How much is written in front of a write, counted from 1, or of the end, 0.
fn written_before(write: u64, whole: usize) -> usize {
    match write.checked_sub(1) {
        Some(writes) => whole.min((writes as usize).saturating_mul(16)),
        None => whole,
    }
}

#[test]
fn a_failing_write_cuts_the_output_off(rt: HostRuntime) -> Result<(), test::Fail> {
    let alloc = rt.alloc();
    let bin = binary(alloc, 1)?;
    for (words, perf) in COMMANDS {
        let (_, whole) = answer(alloc, words, &bin, perf, &failing(0, 0, 99))?;
        let writes = whole.len().div_ceil(16) as u64;
        for write in 0..writes.saturating_add(2) {
            let (status, written) = answer(alloc, words, &bin, perf, &failing(0, 0, write))?;
            let want = if write <= writes {
                Status::WriteFault
            } else {
                Status::Done
            };
            let front = whole.get(..written_before(write, whole.len()));
            assert_eq!(rt; status, want, "write {write}");
            assert_eq!(rt; Some(written.as_slice()), front, "write {write}");
        }
    }
    Ok(())
}

#[test]
fn a_byte_too_little_room_cuts_the_output_off(rt: HostRuntime) -> Result<(), test::Fail> {
    let alloc = rt.alloc();
    let bin = binary(alloc, 1)?;
    for (words, perf) in COMMANDS {
        let (_, whole) = answer(alloc, words, &bin, perf, &failing(0, 0, 99))?;
        let how = Pieces {
            room: whole.len().saturating_sub(1),
            ..failing(0, 0, 99)
        };
        let (status, written) = answer(alloc, words, &bin, perf, &how)?;
        assert_eq!(rt; status, Status::WriteFault);
        assert_eq!(rt; Some(written.as_slice()), whole.get(..how.room));
    }
    Ok(())
}

// Eight good lines fill a piece, and the line behind them is bad.
#[test]
fn a_bad_line_before_a_failing_read_is_refused(rt: HostRuntime) -> Result<(), test::Fail> {
    let alloc = rt.alloc();
    let mut text = b"0x3/0x4\n".repeat(alloc, 8)?;
    text.extend_from_slice(b"zz\n")?;
    text.extend_from_slice(&b"0x1/0x2\n".repeat(alloc, 100)?)?;
    let refused = Status::Refused(Place {
        file: 1,
        at: 9,
        kind: Kind::BadLine,
    });
    for (call, want) in [(2, Status::ReadFault(1)), (3, refused)] {
        let words: &[&[u8]] = &[b"counts", b"perf"];
        let (status, written) = answer(alloc, words, b"", &text, &failing(1, call, 99))?;
        assert_eq!(rt; status, want);
        assert_eq!(rt; written.len(), 0);
    }
    Ok(())
}

// For runs in which one request for memory is refused. Where it is one of the test's own, there is
// nothing to see.
#[test]
fn without_memory_nothing_is_written(rt: HostRuntime) {
    let alloc = rt.alloc();
    let Ok(bin) = binary(alloc, 1) else {
        return;
    };
    for (words, perf) in COMMANDS {
        if let Ok((status, out)) = answer(alloc, words, &bin, perf, &failing(0, 0, 99)) {
            let refused = status == Status::NoMemory;
            assert!(rt; refused || status == Status::Done);
            assert_eq!(rt; out.is_empty(), refused);
        }
    }
}

/// Appends a branch behind a space.
fn push_branch(text: &mut Vec<u8>, from: u64, to: u64) -> Result<(), test::Fail> {
    text.push(b' ')?;
    push_hex(text, from)?;
    text.push(b'/')?;
    push_hex(text, to)?;
    Ok(())
}

/// A line with one range for each address of each of 4,096 functions: to its last address.
fn many_ranges(alloc: Global) -> Result<Vec<u8>, test::Fail> {
    let mut text = Vec::new(alloc);
    for function in 0..4096u64 {
        let start = 0x401000 + 0x40 * function;
        for address in start..start + 0x40 {
            push_branch(&mut text, start + 0x3f, 9)?;
            push_branch(&mut text, 9, address)?;
            text.push(b'\n')?;
        }
    }
    Ok(text)
}

/// What stands in a text from its first `#` on.
fn report_in(text: &[u8]) -> &[u8] {
    let (_, report) = text.split_at(memchr(b'#', text).unwrap_or(text.len()));
    report
}

/// How many lines of a text begin with these bytes.
fn lines_with(front: &[u8], text: &[u8]) -> u64 {
    let mut count = 0u64;
    for line in Lines::new(text) {
        if line.bytes.starts_with(front) {
            count = count.wrapping_add(1);
        }
    }
    count
}

// Scans over lists of pairs, ranges or segments do not end here in a test's time. From outside 64
// addresses of each function are branched to: its first one, which enters it, and 63 others. All
// branches back are one for each function.
#[test]
fn a_quarter_of_a_million_ranges_are_counted(rt: HostRuntime) -> Result<(), test::Fail> {
    let alloc = rt.alloc();
    let how = Pieces {
        read: 1 << 16,
        room: 1 << 25,
        fail_read: Fail { file: 0, call: 0 },
        fail_write: 1 << 60,
    };
    let text = many_ranges(alloc)?;
    let (status, written) = answer(alloc, WORDS, &binary(alloc, 4096)?, &text, &how)?;
    assert_eq!(rt; status, Status::Done);
    let first = b"f0000:168:1\n 0: 8\n 1: 16\n 2.2: 48\n 3: 64\n 2.1: g:32\n  1: 32\nf0001:";
    let report = b"# branches 524288\n# entries 4096\n# inside 0\n\
# unmapped FromOutside 0x9 0x401001 1\n";
    let last = b" 64\n# ranges ran 262144\n# ranges reversed 0\n# ranges outside 0\n\
# ranges crossing 0\n# units read 1 passed 0\n";
    assert!(rt; written.starts_with(first));
    assert!(rt; report_in(&written).starts_with(report));
    assert_eq!(rt; lines_with(b"# unmapped", &written), 262_144);
    assert_eq!(rt; lines_with(b"# unmapped ToOutside", &written), 4096);
    assert!(rt; written.ends_with(last));
    Ok(())
}
