// Entries of functions.
use key_types::NameId;

/// Entries of a function.
#[derive(Clone, Copy, Debug, PartialEq, Eq)]
pub struct Head {
    /// The function that was entered.
    pub name: NameId,
    /// How often.
    pub times: u64,
}
