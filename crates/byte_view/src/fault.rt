use thiserror::Error;

/// Why a cursor did not read what was asked for. The cursor then stands where it stood.
// Why: Ten LEB128 bytes that all go on are `LebTooLong`, and fewer that go on up to the end are
// `Short`. The tenth of a signed number is 00 or 7f.
#[derive(Clone, Copy, Debug, PartialEq, Eq, Error)]
pub enum ViewFault {
    /// The piece ends before the last byte of what was to be read.
    #[error("the bytes end too soon")]
    Short,
    /// A LEB128 number is longer than ten bytes, or does not fit 64 bits.
    #[error("a LEB128 number does not fit 64 bits")]
    LebTooLong,
    /// No NUL follows.
    #[error("no NUL follows the text")]
    NoNul,
}
