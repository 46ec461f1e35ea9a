ghost use Rattle.std.specs.Prelude.{◌≡◌, ◌≤◌, ◌<◌, ◌+◌, ◌^◌, length, IfOk};
ghost use Rattle.key_types.specs.Segments.{HaveSegments, Kept};
ghost use Rattle.context_map.specs.Asked.{AreFunctions, IsMapOver};
ghost use Rattle.context_map.specs.Maps.{IsMap, rows_of};

use crate::asked::Asked;
use crate::functions::Functions;
use crate::parts::parts_of;
use crate::rules::Rules;
use address_spans::{Span, owner_at};
use chain_model::Member;
use key_types::{Keys, NameId, Places, Seg, Where, key_at};
use refusal::NoMemory;
use row_table::RowTable;
use std::alloc::Global;
use std::marker::Model;

/// How many keys one map adds at most.
const MOST_ADDED: u32 = 1 << 28;

/// The place of every address of a binary, and the function that is entered there.
// Why: Kept are segments, spans of chains with a nameless member, stretches, and entrances;
// `NoLine` is what is left. The limits (2^28 new keys, 2^32 stretches) are kept by counting, and
// what passes them is `NoMemory`.
#[derive(Drop)]
pub struct Map {
    segments: Vec<Seg>,
    nameless: Vec<Span>,
    functions: Functions,
}

impl Model for Map {
    ghost use Rattle.address_spans.specs.Spans.{AreDisjoint};
    ghost use Rattle.key_types.specs.Segments.{AreSegments};
    ghost use Rattle.context_map.specs.Maps.{Shown};

    ghost Value = { Shown };

    ghost view = { λ m. record {
      segments = m.segments.items;
      nameless = m.nameless.items;
      stretches = m.functions.stretches;
      entrances = m.functions.entrances;
    } };

    ghost invariant = { λ m. AreSegments m.segments.items × AreDisjoint m.nameless.items };
}

impl Map {
    /// The parts of the program whose addresses have a key, ascending, none empty and no two over
    /// one another, each with its key and factor.
    pub fn segments(&self) -> &[Seg]
        ensures { result.now ≡ self.now.segments }
    {
        &self.segments
    }
}

impl Places for Map {
    ghost use Rattle.span_cover.specs.Stretches.{function_at, number_at};
    ghost use Rattle.span_cover.proofs.StretchLemmas.{are_told};
    ghost use Rattle.context_map.specs.Maps.{entry_told, place_told};

    ghost place_of = { place_told };

    ghost function_of = { λ map address. function_at map.stretches address };

    ghost entry_name_of = { entry_told };

    ghost stretch_of = { λ map address. number_at map.stretches address };

    ghost stretches = { λ map. are_told map.stretches };

    fn place(&self, address: u64) -> Where {
        if let Some(key) = key_at(&self.segments, address) {
            return Where::At(key);
        }
        if self.functions.at(address).is_none() {
            return Where::Outside;
        }
        match owner_at(&self.nameless, address) {
            Some(_) => Where::Nameless,
            None => Where::NoLine,
        }
    }

    fn stretch(&self, address: u64) -> Option<u32> {
        self.functions.stretch(address)
    }

    fn entry_name(&self, address: u64) -> Option<NameId> {
        self.functions.entry_name(address)
    }
}

/// The map of all members of a binary, with a row table for each unit that has rows; with `base`
/// the discriminators in keys are bases. Keys get numbers among those given before.
///
/// # Errors
/// `NoMemory`, also for more than 2^28 new keys; there may then be more keys than before.
pub fn make(
    alloc: Global,
    members: &[Member],
    rows: &[Option<RowTable>],
    keys: &mut Keys,
    base: bool,
) -> Result<Map, NoMemory>
    requires { length keys.old < 2 ^ 31 }
    ensures map { IfOk result (λ map. IsMap (rows_of rows.now) base members.now keys.new map) }
    ensures used { IfOk result (λ map. HaveSegments (length keys.old) keys.new map.segments) }
    ensures kept { Kept keys.old keys.new }
    ensures added { length keys.new ≤ length keys.old + 2 ^ 28 }
{
    let functions = Functions::make(alloc, members)?;
    let asked = Asked::all(alloc);
    make_asked(alloc, members, rows, functions, &asked, keys, base)
}

/// The map of the members of a binary, whose functions these are, by those that are asked for: it
/// tells the place of each address in them, and of all others only the function. Keys get numbers
/// among those given before, as those of `make` do.
///
/// # Errors
/// `NoMemory`, also for more than 2^28 new keys; there may then be more keys than before.
pub fn make_asked(
    alloc: Global,
    members: &[Member],
    rows: &[Option<RowTable>],
    functions: Functions,
    asked: &Asked,
    keys: &mut Keys,
    base: bool,
) -> Result<Map, NoMemory>
    requires few { length keys.old < 2 ^ 31 }
    requires functions { AreFunctions members.now functions }
    ensures map { IfOk result (λ map.
        IsMapOver asked.now (rows_of rows.now) base members.now keys.new map) }
    ensures used { IfOk result (λ map. HaveSegments (length keys.old) keys.new map.segments) }
    ensures kept { Kept keys.old keys.new }
    ensures added { length keys.new ≤ length keys.old + 2 ^ 28 }
{
    let rules = Rules {
        base,
        most: keys.len() + MOST_ADDED,
    };
    let parts = parts_of(alloc, members, asked, rows, keys, rules)?;
    Ok(Map {
        segments: parts.segments,
        nameless: parts.nameless,
        functions,
    })
}
