/// Two addresses, and how often they stand together.
///
/// Of a branch `from` is its source and `to` its target. Of a sampled range `from` is the first
/// address that ran and `to` the last, both held. Pairs go by `from`, then by `to`, and last by
/// `times`.
#[derive(Clone, Copy, Debug, PartialEq, Eq, PartialOrd, Ord)]
pub struct Pair {
    pub from: u64,
    pub to: u64,
    pub times: u64,
}
