// The program's words, as bytes.
use std::alloc::{AllocError, AllocFailed, Global};
use std::env::FillError;
use std::rt::Env;

/// The room for a word. Linux hands over at most MAX_ARG_STRLEN, 128 KiB with its NUL (execve(2)).
const MAX_WORD_BYTES: usize = 1 << 17;

/// Why the words cannot be had.
#[derive(Clone, Copy, Debug, PartialEq, Eq)]
pub(crate) enum WordsStop {
    /// A word has more bytes than the system says that it can have.
    TooLong,
    /// Memory was refused.
    NoMemory,
}

impl From<AllocError> for WordsStop {
    fn from(_: AllocError) -> Self {
        WordsStop::NoMemory
    }
}

impl<T: Drop> From<AllocFailed<T>> for WordsStop {
    fn from(_: AllocFailed<T>) -> Self {
        WordsStop::NoMemory
    }
}

/// The words behind the program's name. They need not be text.
///
/// # Errors
/// `TooLong` for a word with more bytes than the system says that it can have, and `NoMemory`.
// Why: A word longer than the system hands over (128 KiB) is `Usage`: it cannot be had, and names
// no file.
pub(crate) fn read_words(env: &impl Env, alloc: Global) -> Result<Vec<Vec<u8>>, WordsStop> {
    let mut room = vec![in alloc; 0; MAX_WORD_BYTES]?;
    let mut words = Vec::new(alloc);
    for i in 1..usize::MAX {
        match env.arg(i, &mut room) {
            Ok(len) => words.push(Vec::from_slice(alloc, &room[..len])?)?,
            Err(FillError::NotPresent) => break,
            Err(FillError::TooLong) => return Err(WordsStop::TooLong),
        }
    }
    Ok(words)
}
