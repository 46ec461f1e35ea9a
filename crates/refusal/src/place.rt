ghost use Rattle.std.specs.Prelude.{◌≡◌, ⊤};
ghost use Rattle.refusal.specs.Place.{Judges, fails_at, in_binary, stop_in_binary, stop_on_line};
ghost use Rattle.refusal.specs.declared.place.ItemStop.TheVariants.{NoMemory as no_memory_for_item};
ghost use Rattle.refusal.specs.declared.place.Stop.TheVariants.{Refused, NoMemory as no_memory};

use crate::kind::Kind;
use std::alloc::{AllocError, AllocFailed};

/// Memory was refused. Nothing else is known of the call that answers it.
#[derive(Clone, Copy, Debug, PartialEq, Eq)]
pub struct NoMemory;

impl From<AllocError> for NoMemory {
    fn from(_: AllocError) -> Self {
        NoMemory
    }
}

impl<T: Drop> From<AllocFailed<T>> for NoMemory {
    fn from(_: AllocFailed<T>) -> Self {
        NoMemory
    }
}

/// Where an input is refused, and why.
///
/// `file` is the file's position among the command's file words, from 1. `at` is an offset in bytes
/// for a binary, a line number from 1 for a text, and for `Kind::FileTooLarge` the limit in bytes.
#[derive(Clone, Copy, Debug, PartialEq, Eq)]
pub struct Place {
    pub file: u8,
    pub at: u64,
    pub kind: Kind,
}

impl Place {
    /// The place `at` bytes from the start of a binary, which is file 1 of each command that reads
    /// one.
    pub fn in_binary(at: usize, kind: Kind) -> Place
        ensures { result ≡ in_binary at kind }
    {
        Place {
            file: 1,
            at: at as u64,
            kind,
        }
    }

    /// The place of line `at` of a text, which is the command's file `file`; both count from 1.
    pub fn on_line(file: u8, at: u64, kind: Kind) -> Place
        ensures { result ≡ record { file = file; at = at; kind = kind } }
    {
        Place { file, at, kind }
    }
}

/// Refuses an input at this place where a cause holds.
///
/// # Errors
/// `place`, exactly where `cause` is true.
pub fn refuse_if(cause: bool, place: Place) -> Result<(), Place>
    ensures { Judges (fails_at cause place) result (λ _. ⊤) }
{
    if cause { Err(place) } else { Ok(()) }
}

/// Why a reading ended early.
#[derive(Clone, Copy, Debug, PartialEq, Eq)]
pub enum Stop {
    /// The input breaks its format; this is its first bad place.
    Refused(Place),
    /// Memory was refused.
    NoMemory,
}

impl From<Place> for Stop {
    ghost from_gives = { λ place stop. stop ≡ Refused place };

    fn from(place: Place) -> Self {
        Stop::Refused(place)
    }
}

impl From<NoMemory> for Stop {
    ghost from_gives = { λ _ stop. stop ≡ no_memory };

    fn from(_: NoMemory) -> Self {
        Stop::NoMemory
    }
}

/// Why an item of an input was not taken in, for whoever knows its place.
#[derive(Clone, Copy, Debug, PartialEq, Eq)]
pub enum ItemStop {
    /// The item breaks its format, for this cause.
    Refused(Kind),
    /// Memory was refused.
    NoMemory,
}

impl ItemStop {
    /// What ends a reading where this is why line `at` of a text was not taken in. The text is the
    /// command's file `file`; both count from 1.
    pub fn on_line(self, file: u8, at: u64) -> Stop
        ensures { result ≡ stop_on_line file at self }
    {
        match self {
            ItemStop::Refused(kind) => Stop::Refused(Place::on_line(file, at, kind)),
            ItemStop::NoMemory => Stop::NoMemory,
        }
    }

    /// What ends a reading where this is why the item `at` bytes from the start of a binary was not
    /// taken in.
    pub fn in_binary(self, at: usize) -> Stop
        ensures { result ≡ stop_in_binary at self }
    {
        match self {
            ItemStop::Refused(kind) => Stop::Refused(Place::in_binary(at, kind)),
            ItemStop::NoMemory => Stop::NoMemory,
        }
    }
}

impl From<NoMemory> for ItemStop {
    ghost from_gives = { λ _ stop. stop ≡ no_memory_for_item };

    fn from(_: NoMemory) -> Self {
        ItemStop::NoMemory
    }
}

impl From<AllocError> for ItemStop {
    ghost from_gives = { λ _ stop. stop ≡ no_memory_for_item };

    fn from(_: AllocError) -> Self {
        ItemStop::NoMemory
    }
}

impl<T: Drop> From<AllocFailed<T>> for ItemStop {
    ghost from_gives = { λ _ stop. stop ≡ no_memory_for_item };

    fn from(_: AllocFailed<T>) -> Self {
        ItemStop::NoMemory
    }
}
