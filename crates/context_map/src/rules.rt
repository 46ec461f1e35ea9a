/// How keys are made.
#[derive(Clone, Copy, Debug, PartialEq, Eq)]
pub struct Rules {
    /// Whether discriminators pack a base and a factor, and keys have the base.
    pub base: bool,
    /// How many keys there may be.
    pub most: u32,
}
