/// A range of addresses that ran: all between two branches that were taken one behind the other.
#[derive(Clone, Copy, Debug, PartialEq, Eq)]
pub struct RanRange {
    /// The first address that ran.
    pub lo: u64,
    /// The last one, which ran too.
    pub hi: u64,
    /// How often it was sampled.
    pub times: u64,
}
