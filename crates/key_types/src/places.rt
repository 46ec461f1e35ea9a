// What a map of places answers.
ghost use Rattle.std.specs.Prelude.{◌≡◌, ℕ, Option};
ghost use Rattle.key_types.specs.declared.ids.NameId.{NameId as name_id};
ghost use Rattle.key_types.specs.declared.places.Where.{Where as place};
ghost use Rattle.key_types.specs.Places.{IsStretches};

use crate::ids::{KeyId, NameId};

/// A part of the program: addresses that have one key and one factor.
#[derive(Clone, Copy, Debug, PartialEq, Eq)]
pub struct Seg {
    /// The first address.
    pub lo: u64,
    /// The one behind the last.
    pub hi: u64,
    /// The place of all of them.
    pub key: KeyId,
    /// How often their code was copied: 1, where that is not asked.
    pub factor: u64,
}

/// The place of an address.
#[derive(Clone, Copy, Debug, PartialEq, Eq)]
pub enum Where {
    /// No function holds it.
    Outside,
    /// A function of its chain has no name.
    Nameless,
    /// It has no line.
    NoLine,
    /// It has the key of this number.
    At(KeyId),
}

/// A map from addresses to places. No call takes memory.
pub trait Places {
    /// The place of an address.
    ghost place_of: { Self → ℕ → place };

    /// The function that holds an address, by a number that tells functions apart.
    ghost function_of: { Self → ℕ → Option ℕ };

    /// The name of the function that is entered at an address.
    ghost entry_name_of: { Self → ℕ → Option name_id };

    /// The stretch that an address lies in.
    ghost stretch_of: { Self → ℕ → Option ℕ };

    /// The place of an address.
    fn place(&self, address: u64) -> Where
        ensures { result ≡ place_of self.now address };

    /// A number for the stretch of one function that the address lies in, if a function holds it:
    /// two addresses have the same number exactly where one function holds all from the one to the
    /// other.
    fn stretch(&self, address: u64) -> Option<u32>
        ensures { result ≡ stretch_of self.now address };

    /// The name of the function that is entered at this address, if a named one is.
    fn entry_name(&self, address: u64) -> Option<NameId>
        ensures { result ≡ entry_name_of self.now address };

    /// The numbers of the stretches are such.
    ghost stretches: { (map : Self) → IsStretches (function_of map) (stretch_of map) };
}
