// Counts of keys.
use key_types::KeyId;

/// The count of a key.
#[derive(Clone, Copy, Debug, PartialEq, Eq)]
pub struct KeyCount {
    pub key: KeyId,
    /// How often it ran.
    pub times: u64,
}
