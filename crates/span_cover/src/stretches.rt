ghost use Rattle.std.specs.Prelude.{◌≡◌, ◌≤◌, ◌<◌, ℕ, true, IfOk};
ghost use Rattle.address_spans.specs.Spans.{AreDisjoint, owner_at as owner_of};
ghost use Rattle.span_cover.specs.Stretches.{are_stretches};

use crate::join::joined;
use crate::number::numbered;
use address_spans::{Span, owner_at};
use refusal::NoMemory;
use std::alloc::Global;
use std::marker::Model;

/// The stretches of functions, ascending. Each has a number, from 0 on, and a function.
// Why: It is a list that carries a proof: `Places` asks its law of every value, and an invariant is
// not seen there.
#[derive(Debug, Drop)]
pub struct Stretches {
    spans: Vec<Span>,
    numbers: Vec<Span>,
    ghost are: { are_stretches spans.items ≡ true },
}

impl Model for Stretches {
    ghost use Rattle.std.specs.Prelude.{◌≡◌, ◌≤◌, ◌^◌, length};
    ghost use Rattle.span_cover.specs.Stretches.{Stretched, numbered};

    ghost Value = { Stretched };

    ghost view = { λ s. record { spans = s.spans.items; are = s.are } };

    ghost invariant = { λ s. (s.numbers.items ≡ numbered 0 s.spans.items)
        × (length s.spans.items ≤ 2 ^ 32) };
}

impl Stretches {
    ghost use Rattle.span_cover.specs.Stretches.{function_at, number_at};

    /// The stretches of disjoint spans, each owned by its function.
    ///
    /// # Errors
    /// `NoMemory`, also for more stretches than there are numbers: 2^32.
    pub fn make(alloc: Global, spans: &[Span]) -> Result<Stretches, NoMemory>
        requires { AreDisjoint spans.now }
        ensures { IfOk result
            (λ made. (address : ℕ) → function_at made address ≡ owner_of spans.now address) }
    {
        let spans = joined(alloc, spans)?;
        if spans.len() > u32::MAX as usize {
            return Err(NoMemory);
        }
        let numbers = numbered(alloc, &spans)?;
        Ok(Stretches { spans, numbers })
    }

    /// The function that holds an address.
    pub fn function(&self, address: u64) -> Option<usize>
        ensures { result ≡ function_at self.now address }
    {
        owner_at(&self.spans, address)
    }

    /// The number of the stretch that holds an address. Two addresses have the same one exactly
    /// where one function holds all from the one to the other.
    pub fn number(&self, address: u64) -> Option<u32>
        ensures { result ≡ number_at self.now address }
    {
        let number = owner_at(&self.numbers, address)?;
        Some(number as u32)
    }

    /// The stretches that hold an address from `lo` on and below `hi`, each owned by its function.
    pub fn between(&self, lo: u64, hi: u64) -> &[Span]
        ensures { (address : ℕ) → lo ≤ address → address < hi
            → owner_of result.now address ≡ function_at self.now address }
    {
        let first = self.spans.partition_point(|span| span.hi <= lo);
        let behind = &self.spans[first..];
        let count = behind.partition_point(|span| span.lo < hi);
        &behind[..count]
    }
}
