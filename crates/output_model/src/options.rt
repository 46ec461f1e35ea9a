/// What is asked of repairs.
#[derive(Clone, Copy, Debug, PartialEq, Eq)]
pub struct RepairOptions {
    /// Whether edges are weighed, and their weights told.
    pub edges: bool,
    /// Whether functions are repaired within a bound on augmentations, and these are counted.
    pub scaled: bool,
}
