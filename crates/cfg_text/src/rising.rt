// Blocks that stand behind one another.
ghost use Rattle.std.specs.Prelude.{◌≡◌, ◌≤◌, ◌<◌, length, map, take, true};
ghost use Rattle.std.specs.List.{AllByRecursion, AllWithin, list_any};
ghost use Rattle.cfg_text.specs.Taken.{AreApart, meets, span_of};

use block_model::Block;

/// Whether all blocks are among those that stand behind one another, which are so many at the
/// front, and end at or before an address.
pub(crate) fn all_end_by(blocks: &[Block], rising: usize, lo: u64) -> bool
    requires { AreApart 0 (map span_of (take rising blocks.now)) }
    ensures all { result ≡ true → rising ≡ length blocks.now }
    ensures behind { result ≡ true → AllByRecursion (λ block. block.hi ≤ lo) blocks.now }
{
    rising == blocks.len() && end_by(blocks, lo)
}

/// Whether blocks that stand behind one another end at or before an address.
fn end_by(blocks: &[Block], lo: u64) -> bool
    requires { AreApart 0 (map span_of blocks.now) }
    ensures { result ≡ true → AllByRecursion (λ block. block.hi ≤ lo) blocks.now }
{
    match blocks.last() {
        Some(last) => last.hi <= lo,
        None => true,
    }
}

/// Whether some of these blocks, which stand behind one another, holds an address from `lo` to
/// below `hi`. It is enough to ask the last one that begins before `hi`.
pub(crate) fn meet(blocks: &[Block], lo: u64, hi: u64) -> bool
    requires { AreApart 0 (map span_of blocks.now) }
    ensures { result ≡ list_any (λ block. meets lo hi (span_of block)) blocks.now }
{
    if end_by(blocks, lo) {
        return false;
    }
    let end = begun(blocks, hi);
    if end == 0 {
        return false;
    }
    lo < blocks[end - 1].hi
}

/// How many of these blocks, which stand behind one another, begin before an address.
fn begun(blocks: &[Block], hi: u64) -> usize
    requires { AreApart 0 (map span_of blocks.now) }
    ensures within { result ≤ length blocks.now }
    ensures begun { AllWithin (λ block. block.lo < hi) blocks.now 0 result }
    ensures others { AllWithin (λ block. hi ≤ block.lo) blocks.now result (length blocks.now) }
{
    blocks.partition_point(|block| block.lo < hi)
}
