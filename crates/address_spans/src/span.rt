/// The addresses from `lo` on that are below `hi`, none where `hi` is not above `lo`, and the
/// number of what they belong to.
#[derive(Clone, Copy, Debug, PartialEq, Eq)]
pub struct Span {
    pub lo: u64,
    pub hi: u64,
    pub owner: usize,
}
