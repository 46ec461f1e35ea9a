// The text of numbers that are stated.
ghost use Rattle.std.specs.Prelude.{◌≡◌, ◌<◌, ℕ, length, slice_index_or};
ghost use Rattle.std.specs.List.{All};
ghost use Rattle.profile_tree.specs.Known.{HasNames};
ghost use Rattle.profile_tree.specs.Stated.{AreStated};
ghost use Rattle.profile_tree.specs.declared.key_count.KeyCount.{KeyCount as key_count};

use key_types::{KeyId, Keys, NameId, Names};
use profile_text::{read, write};
use profile_tree::{Call, Head, KeyCount, from_counts};
use refusal::NoMemory;
use std::alloc::Global;
use std::test::Fail;

/// Two functions and five keys, which are numbered from 0 in this order.
const KNOWN: &[u8] = b"f0000:0:0\n 0: 0\n 1: 0\n 2.2: 0\n 3: 0\n 2.1: g:0\n  1: 0\n";

/// What was counted of all five keys.
const ALL: &[u8] = b"f0000:7:1\n 0: 1\n 1: 1\n 2.2: 2\n 3: 2 f0000:1\n 2.1: g:1\n  1: 1\n";

/// So many times for each of the five keys.
fn counts_of(times: [u64; 5]) -> [KeyCount; 5]
    ensures each { (k : ℕ) (d : key_count) → k < 5 → (slice_index_or result k d).key.0 ≡ k }
    ensures len { length result ≡ 5 }
{
    let [a, b, c, d, e] = times;
    [
        KeyCount {
            key: KeyId(0),
            times: a,
        },
        KeyCount {
            key: KeyId(1),
            times: b,
        },
        KeyCount {
            key: KeyId(2),
            times: c,
        },
        KeyCount {
            key: KeyId(3),
            times: d,
        },
        KeyCount {
            key: KeyId(4),
            times: e,
        },
    ]
}

/// A function that called itself once from the fourth key.
const CALL: Call = Call {
    key: KeyId(3),
    callee: NameId(0),
    times: 1,
};

/// One entry of it.
const HEAD: Head = Head {
    name: NameId(0),
    times: 1,
};

/// The text of the profile that states these numbers.
fn text(
    alloc: Global,
    keys: &Keys,
    names: &Names,
    counts: &[KeyCount],
    calls: &[Call],
    heads: &[Head],
) -> Result<Vec<u8>, NoMemory>
    requires { AreStated (length names.now) keys.now counts.now calls.now heads.now }
{
    let tree = from_counts(alloc, counts, calls, heads, keys, names)?;
    let mut out = Vec::new(alloc);
    write(&tree, names, &mut out)?;
    Ok(out)
}

/// The texts of profiles.
#[derive(Drop)]
struct Profiles {
    /// Of all five keys.
    all: Vec<u8>,
    /// Of a call and an entry alone.
    entered: Vec<u8>,
    /// Of one key alone.
    one: Vec<u8>,
    /// Of no number.
    nothing: Vec<u8>,
}

fn written(alloc: Global, keys: &Keys, names: &Names) -> Result<Profiles, NoMemory>
    requires keys { length keys.now ≡ 5 }
    requires names { length names.now ≡ 2 }
    requires named { All (HasNames (length names.now)) keys.now }
{
    let counts = counts_of([1, 1, 2, 2, 1]);
    let all = text(alloc, keys, names, &counts, &[CALL], &[HEAD])?;
    let entered = text(alloc, keys, names, &[], &[CALL], &[HEAD])?;
    let one = text(alloc, keys, names, &counts[..1], &[], &[])?;
    let nothing = text(alloc, keys, names, &[], &[], &[])?;
    Ok(Profiles {
        all,
        entered,
        one,
        nothing,
    })
}

#[test]
fn each_number_is_as_it_is_stated(rt: HostRuntime) -> Result<(), Fail> {
    let alloc = rt.alloc();
    let mut names = Names::new(alloc)?;
    let mut keys = Keys::new(alloc)?;
    let Ok(_) = read(alloc, KNOWN, 1, &mut names, &mut keys) else {
        panic!(rt; "no memory");
    };
    let key_count = keys.len();
    let name_count = names.len();
    if key_count != 5 || name_count != 2 {
        panic!(rt; "{key_count} keys and {name_count} names");
    }
    let made = written(alloc, &keys, &names)?;
    assert_eq!(rt; made.all.as_slice(), ALL);
    assert_eq!(rt;
        made.entered.as_slice(),
        b"f0000:0:1\n 3: 0 f0000:1\n".as_slice()
    );
    assert_eq!(rt; made.one.as_slice(), b"f0000:1:0\n 0: 1\n".as_slice());
    assert_eq!(rt; made.nothing.as_slice(), b"".as_slice());
    Ok(())
}
