ghost use Rattle.std.specs.Prelude.{◌≡◌, ◌++◌, ◌∷◌, [], ◌<◌, length, None, OnOk};
ghost use Rattle.dwarf_abbrev.specs.Codes.{place_of, in_order};

use refusal::NoMemory;
use std::alloc::Global;
use std::collections::BTreeMap;
use std::marker::Model;

/// Codes that are all distinct, in the order in which they came, with the place of each.
///
/// Codes are 1, 2, 3 and so on in nearly all tables, and the map is then empty.
#[derive(Debug, Drop)]
pub(crate) struct Codes {
    codes: Vec<u64>,
    others: BTreeMap<u64, usize>,
}

impl Model for Codes {
    ghost use Rattle.std.specs.Prelude.{ℕ, List};
    ghost use Rattle.dwarf_abbrev.specs.Codes.{IsIndex};

    ghost Value = { List ℕ };

    ghost view = { λ c. c.codes.items };

    ghost invariant = { λ c. IsIndex c.codes.items c.others };
}

/// Whether a code stands in its order.
fn is_in_order(codes: &[u64], code: u64) -> bool
    ensures { result ≡ in_order codes.now code }
{
    code > 0 && code - 1 < codes.len() as u64 && codes[(code - 1) as usize] == code
}

impl Codes {
    /// No codes.
    pub fn new(alloc: Global) -> Codes
        ensures { result ≡ [] }
    {
        Codes {
            codes: Vec::new(alloc),
            others: BTreeMap::new(alloc),
        }
    }

    /// How many codes there are.
    pub fn len(&self) -> usize
        ensures { result ≡ length self.now }
    {
        self.codes.len()
    }

    /// The place of a code, where it is one of them.
    pub fn place(&self, code: u64) -> Option<usize>
        ensures { result ≡ place_of self.now code }
    {
        if is_in_order(&self.codes, code) {
            return Some((code - 1) as usize);
        }
        self.others.get(&code).copied()
    }

    /// Adds a code behind the others.
    pub fn push(&mut self, code: u64) -> Result<(), NoMemory>
        requires fresh { place_of self.old code ≡ None }
        requires positive { 0 < code }
        ensures { OnOk result (self.new ≡ self.old ++ code ∷ []) }
    {
        self.codes.try_reserve(1)?;
        let place = self.codes.len();
        if code - 1 == place as u64 {
            self.codes.push_reserved(code);
            return Ok(());
        }
        self.others.insert(code, place)?;
        self.codes.push_reserved(code);
        Ok(())
    }
}
