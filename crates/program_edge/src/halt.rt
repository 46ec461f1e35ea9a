ghost use Rattle.std.specs.Prelude.{◌≡◌};
ghost use Rattle.program_edge.specs.Halt.{judged_in, status_of};
ghost use Rattle.program_edge.specs.declared.halt.Halt.TheVariants.{NoMemory as no_memory};

use crate::status::Status;
use refusal::{NoMemory, Place, Stop};

/// What ends a command before its output is made.
#[derive(Clone, Copy, Debug)]
pub enum Halt {
    /// The file word, from 1, for which there is no file.
    NoSuchFile(u8),
    /// The first bad place of the files.
    Refused(Place),
    /// The first line, from 1, that fails a check.
    CheckFailed(u64),
    /// The file word, from 1, whose file could not be read.
    ReadFault(u8),
    /// Memory was refused.
    NoMemory,
}

impl From<NoMemory> for Halt {
    ghost from_gives = { λ _ halt. halt ≡ no_memory };

    fn from(_: NoMemory) -> Self {
        Halt::NoMemory
    }
}

impl From<Halt> for Status {
    ghost from_gives = { λ halt status. status ≡ status_of halt };

    fn from(halt: Halt) -> Self {
        match halt {
            Halt::NoSuchFile(file) => Status::NoSuchFile(file),
            Halt::Refused(place) => Status::Refused(place),
            Halt::CheckFailed(line) => Status::CheckFailed(line),
            Halt::ReadFault(file) => Status::ReadFault(file),
            Halt::NoMemory => Status::NoMemory,
        }
    }
}

/// What judging the k-th file came to: a bad place is one of that file.
///
/// # Errors
/// `Refused` at the bad place in the k-th file, and `NoMemory`.
// Why: A bad place is told as one of the file that was judged, whatever number the judge gave it.
// So `Refused` names its file by what was opened, without a law over all items of a binary.
pub fn in_file<T>(k: u8, judged: Result<T, Stop>) -> Result<T, Halt>
    ensures { result ≡ judged_in k judged }
{
    match judged {
        Ok(value) => Ok(value),
        Err(Stop::Refused(place)) => Err(Halt::Refused(Place { file: k, ..place })),
        Err(Stop::NoMemory) => Err(Halt::NoMemory),
    }
}
