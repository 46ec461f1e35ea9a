ghost use Rattle.std.specs.Prelude.{◌≡◌, ◌≤◌, ◌<◌, [], ℕ, false, replicate, true, IfOk};
ghost use Rattle.address_spans.specs.Spans.{owner_at};
ghost use Rattle.span_cover.specs.Asked.{Keeps, asks, is_asked};
ghost use Rattle.span_cover.specs.Stretches.{function_at};

use crate::functions::Functions;
use address_spans::Span;
use refusal::NoMemory;
use std::alloc::Global;
use std::marker::Model;

/// The functions of a binary whose places are asked for.
// Why: The map is made behind the last text, of the functions that samples, blocks or an address
// ask for: others have no places. A function without a mark is asked for, so no marks ask for
// everything.
#[derive(Debug, Drop)]
pub struct Asked {
    marks: Vec<bool>,
}

impl Model for Asked {
    ghost use Rattle.std.specs.Prelude.{Bool, List};

    ghost Value = { List Bool };

    ghost view = { λ asked. asked.marks.items };
}

impl Asked {
    /// All functions.
    pub fn all(alloc: Global) -> Asked
        ensures { result ≡ [] }
    {
        Asked {
            marks: Vec::new(alloc),
        }
    }

    /// None yet, of a binary with so many functions and inlined calls.
    ///
    /// # Errors
    /// `NoMemory`.
    pub fn none(alloc: Global, members: usize) -> Result<Asked, NoMemory>
        ensures { IfOk result (λ asked. asked ≡ replicate members false) }
    {
        let marks = vec![in alloc; false; members]?;
        Ok(Asked { marks })
    }

    /// Whether the function of a number is asked for.
    pub fn marks(&self) -> &[bool]
        ensures { result.now ≡ self.now }
    {
        &self.marks
    }

    /// Asks for the place of an address.
    pub fn ask(&mut self, functions: &Functions, address: u64)
        ensures asked { asks self.new (function_at functions.now.stretches address) ≡ true }
        ensures kept { Keeps self.old self.new }
    {
        if let Some(function) = functions.at(address) {
            mark(&mut self.marks, function);
        }
    }

    /// Asks for the places of all addresses from `lo` on and below `hi`.
    pub fn ask_between(&mut self, functions: &Functions, lo: u64, hi: u64)
        ensures asked { (address : ℕ) → lo ≤ address → address < hi
            → asks self.new (function_at functions.now.stretches address) ≡ true }
        ensures kept { Keeps self.old self.new }
    {
        mark_all(&mut self.marks, functions.between(lo, hi));
    }
}

/// Asks for the functions that own spans.
fn mark_all(marks: &mut [bool], spans: &[Span])
    ensures asked { (address : ℕ) → asks marks.new (owner_at spans.now address) ≡ true }
    ensures kept { Keeps marks.old marks.new }
{
    for span in spans {
        mark(marks, span.owner);
    }
}

/// Asks for a function.
fn mark(marks: &mut [bool], function: usize)
    ensures asked { is_asked marks.new function ≡ true }
    ensures kept { Keeps marks.old marks.new }
{
    if function < marks.len() {
        marks[function] = true;
    }
}
