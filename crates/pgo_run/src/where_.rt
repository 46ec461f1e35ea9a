// `where`: the place of an address of a binary.
ghost use Rattle.std.specs.Prelude.{◌≡◌, ◌≤◌, ℕ, Bool, List, length, true, IfOk};
ghost use Rattle.refusal.specs.Place.{JudgesUnlessNoMemory};
ghost use Rattle.binary_model.specs.Binary.{first_bad_of_binary, max_binary_bytes};
ghost use Rattle.binary_model.specs.Places.{place_of_address};
ghost use Rattle.binary_places.specs.Binary.{IsBinary, IsPlaced, asks_in};
ghost use Rattle.command_model.specs.Command.{where_ as where_command};
ghost use Rattle.command_model.specs.Where.{where_text};
ghost use Rattle.command_words.specs.Words.{told_options};
ghost use Rattle.program_edge.specs.Output.{Carries};

use answer_text::place_line;
use binary_places::{Asked, Binary, Placed, places, read};
use command_words::Options;
use io_edge::Inputs;
use key_types::Places;
use program_edge::{BINARY, Halt, MAX_BINARY_BYTES, in_file, read_file};
use refusal::{NoMemory, Stop};
use std::alloc::Global;

/// What `where` writes for an address of the binary in this file.
///
/// # Errors
/// Those of reading file 1, and the first bad place of the binary.
pub(crate) fn output<I: Inputs>(
    alloc: Global,
    options: Options<'_>,
    binary: &[u8],
    address: u64,
    inputs: &mut I,
) -> Result<Vec<u8>, Halt>
    ensures carried { Carries (where_command (told_options options.entry) binary.now address)
        (I.store inputs.old) result
        (I.opens inputs.old) (I.opens inputs.new) (I.faults inputs.old) (I.faults inputs.new) }
    ensures store { I.store inputs.new ≡ I.store inputs.old }
{
    let file = read_file(alloc, inputs, BINARY, binary, MAX_BINARY_BYTES)?;
    let line = in_file(BINARY, line_of(alloc, &file, options.base, address))?;
    Ok(line)
}

/// The line of an address of a binary.
fn line_of(alloc: Global, file: &[u8], base: bool, address: u64) -> Result<Vec<u8>, Stop>
    requires { length file.now ≤ max_binary_bytes }
    ensures { JudgesUnlessNoMemory (first_bad_of_binary file.now) result
        (λ out. out.items ≡ where_text (place_of_address file.now base address)) }
{
    let binary = read(alloc, file, base)?;
    let placed = placed_at(alloc, binary, address)?;
    Ok(place_line(
        alloc,
        &placed.names,
        &placed.keys,
        placed.map.place(address),
    )?)
}

/// The places of a binary, as far as this address asks for them.
fn placed_at(alloc: Global, binary: Binary<'_>, address: u64) -> Result<Placed<'_>, NoMemory>
    requires { (file : List ℕ) × (base : Bool) × IsBinary file base binary }
    ensures { IfOk result (λ placed. (file : List ℕ) (base : Bool)
        → IsBinary file base binary.entry → (marks : List Bool)
        × IsPlaced file base marks placed × (asks_in file marks address ≡ true)) }
{
    let mut asked = Asked::none(alloc, binary.members.len())?;
    asked.ask(&binary.functions, address);
    let placed = places(alloc, binary, &asked)?;
    Ok(placed)
}
