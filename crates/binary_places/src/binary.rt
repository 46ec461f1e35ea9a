ghost use Rattle.std.specs.Prelude.{◌≡◌, ◌≤◌, ℕ, Bool, List, IfOk, length};
ghost use Rattle.refusal.specs.Place.{JudgesUnlessNoMemory};
ghost use Rattle.binary_model.specs.Binary.{first_bad_of_binary, max_binary_bytes};
ghost use Rattle.binary_places.specs.Binary.{IsBinary, IsPlaced};

use crate::sections::Sections;
use crate::tables::read_tables;
use chain_model::Member;
use context_map::{Asked, Functions, Map, make_asked};
use dwarf_info::{Units, read_units};
use inline_tree::Source;
use key_types::{Keys, Names};
use load_model::LoadSegment;
use refusal::{NoMemory, Stop};
use row_table::RowTable;
use std::alloc::Global;

/// A binary that was read and judged: all that its places are made of.
#[derive(Drop)]
pub struct Binary<'a> {
    /// The names of functions and inlined calls, lent from the file.
    pub names: Names<'a>,
    /// The functions and the calls inlined into them.
    pub members: Vec<Member>,
    /// The row table of each unit that has rows.
    pub tables: Vec<Option<RowTable>>,
    /// The function that holds each address.
    pub functions: Functions,
    /// Whether discriminators in keys are bases.
    pub base: bool,
    /// The loaded executable segments, in the order of their headers.
    pub loads: Vec<LoadSegment>,
    /// How many units were read.
    pub read: usize,
    /// How many units were passed over.
    pub passed: usize,
}

/// The places of a binary, where they were asked for.
#[derive(Drop)]
pub struct Placed<'a> {
    /// The names of functions and inlined calls, lent from the file.
    pub names: Names<'a>,
    /// The places that addresses have.
    pub keys: Keys,
    /// The place of each address that was asked for, and the function of each.
    pub map: Map,
}

/// How many units were read, and how many passed over; the units are given back.
fn counts(units: Units<'_>) -> (usize, usize)
    ensures read { result.0 ≡ length units.entry.units }
    ensures passed { result.1 ≡ length units.entry.skipped }
{
    (units.units().len(), units.skipped().len())
}

/// Judges a binary as a whole, and keeps what tells the places of its addresses. With `base` the
/// discriminators in keys are bases. The size is the caller's to judge: at most 2^30 bytes.
///
/// # Errors
/// The first bad place of the binary: of the headers, of the sections that are looked up, of the
/// units with their entries, of the line programs, and of the pieces and names of functions and
/// inlined calls. docs/FORMATS.md has every cause.
pub fn read(alloc: Global, file: &[u8], base: bool) -> Result<Binary<'_>, Stop>
    requires { length file.now ≤ max_binary_bytes }
    ensures { JudgesUnlessNoMemory (first_bad_of_binary file.now) result
        (IsBinary file.now base) }
{
    let elf = elf_sections::read(alloc, file)?;
    let sections = Sections::find(&elf)?;
    let units = read_units(alloc, sections.info, sections.abbrev)?;
    let tables = read_tables(alloc, &elf, &units, sections.line)?;
    let source = Source {
        elf: &elf,
        start: sections.info_start(),
        units: &units,
        parts: &sections.ranges,
    };
    let loads = elf.loads(alloc)?;
    let gathered = inline_tree::gather(alloc, &source)?;
    let (read, passed) = counts(units);
    let tree = gathered.into_tree(alloc)?;
    let functions = Functions::make(alloc, &tree.members)?;
    Ok(Binary {
        names: tree.names,
        members: tree.members,
        tables,
        functions,
        base,
        loads,
        read,
        passed,
    })
}

/// The places of a binary, of the functions that are asked for.
///
/// # Errors
/// `NoMemory`.
// Why: The whole binary is judged before the text is opened, and which functions are asked for is
// known behind it. So `read` and this are two calls.
pub fn places<'a>(alloc: Global, binary: Binary<'a>, asked: &Asked) -> Result<Placed<'a>, NoMemory>
    requires { (file : List ℕ) × (base : Bool) × IsBinary file base binary }
    ensures { IfOk result (λ placed. (file : List ℕ) (base : Bool)
        → IsBinary file base binary.entry → IsPlaced file base asked.now placed) }
{
    let functions = binary.functions;
    let mut keys = Keys::new(alloc)?;
    let map = make_asked(
        alloc,
        &binary.members,
        &binary.tables,
        functions,
        asked,
        &mut keys,
        binary.base,
    )?;
    Ok(Placed {
        names: binary.names,
        keys,
        map,
    })
}
