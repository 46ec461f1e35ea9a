/// An address at which hits change: from there on all addresses have as many, up to the next step.
#[derive(Clone, Copy, Debug, PartialEq, Eq)]
pub struct Step {
    pub at: u64,
    pub hits: u64,
}
