ghost use Rattle.std.specs.Prelude.{◌≡◌, ◌≤◌, ◌<◌, ℕ, IfOk};
ghost use Rattle.address_spans.specs.Spans.{owner_at};
ghost use Rattle.context_map.specs.Asked.{AreFunctions, entry_held};

use crate::entrance::{Entrance, entrances_of};
use address_spans::Span;
use chain_model::Member;
use key_types::NameId;
use refusal::NoMemory;
use span_cover::{Stretches, function_cover};
use std::alloc::Global;
use std::marker::Model;

/// Which function holds each address of a binary, its stretch, and where functions are entered:
/// what is told of all addresses before places are asked for.
#[derive(Debug, Drop)]
pub struct Functions {
    stretches: Stretches,
    entrances: Vec<Entrance>,
}

impl Model for Functions {
    ghost use Rattle.context_map.specs.Asked.{Held};

    ghost Value = { Held };

    ghost view = { λ f. record { stretches = f.stretches; entrances = f.entrances.items } };
}

impl Functions {
    ghost use Rattle.span_cover.specs.Stretches.{function_at, number_at};

    /// The functions among the members of a binary.
    ///
    /// # Errors
    /// `NoMemory`.
    pub fn make(alloc: Global, members: &[Member]) -> Result<Functions, NoMemory>
        ensures { IfOk result (λ made. AreFunctions members.now made) }
    {
        let stretches = Stretches::make(alloc, &function_cover(alloc, members)?)?;
        let entrances = entrances_of(alloc, members)?;
        Ok(Functions {
            stretches,
            entrances,
        })
    }

    /// The number of the function that holds an address.
    pub fn at(&self, address: u64) -> Option<usize>
        ensures { result ≡ function_at self.now.stretches address }
    {
        self.stretches.function(address)
    }

    /// The number of the stretch that holds an address.
    pub(crate) fn stretch(&self, address: u64) -> Option<u32>
        ensures { result ≡ number_at self.now.stretches address }
    {
        self.stretches.number(address)
    }

    /// The stretches that hold an address from `lo` on and below `hi`.
    pub(crate) fn between(&self, lo: u64, hi: u64) -> &[Span]
        ensures { (address : ℕ) → lo ≤ address → address < hi
            → owner_at result.now address ≡ function_at self.now.stretches address }
    {
        self.stretches.between(lo, hi)
    }

    /// The name of the function that is entered at an address.
    pub(crate) fn entry_name(&self, address: u64) -> Option<NameId>
        ensures { result ≡ entry_held self.now address }
    {
        let function = self.stretches.function(address)?;
        let entrance = self.entrances.get(function)?;
        if entrance.address == address {
            entrance.name
        } else {
            None
        }
    }
}
