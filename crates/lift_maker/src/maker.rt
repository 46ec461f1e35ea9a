// What was built of a binary, with the repaired counts of blocks on its lines.
ghost use Rattle.std.specs.Prelude.{◌≡◌, ◌≤◌, ◌^◌, ℕ, All, Bool, List, length, map, IfOk};
ghost use Rattle.std.specs.List.{AllZip};
ghost use Rattle.refusal.specs.Place.{JudgesUnlessNoMemory};
ghost use Rattle.binary_places.specs.Binary.{IsBinary};
ghost use Rattle.block_model.specs.Text.{functions_of};
ghost use Rattle.cfg_text.specs.Fun.{function_of};
ghost use Rattle.flow_model.specs.Sound.{IsSound};
ghost use Rattle.key_types.specs.Segments.{AreSegments};
ghost use Rattle.line_lift.specs.Lift.{HaveKeys, lifted_by, repaired, way_in};
ghost use Rattle.profile_model.specs.Text.{profile_text};
ghost use Rattle.profile_text.specs.Draft.{Kept};
ghost use Rattle.profile_text.specs.Numbers.{AreNumbersOf};
ghost use Rattle.profile_tree.specs.Known.{HasNames};
ghost use Rattle.repair_model.specs.Checking as model;
ghost use Rattle.repair_model.specs.Laws.{IsToldOf};
ghost use Rattle.repair_text.specs.Repair.{numbered};
ghost use Rattle.lift_maker.specs.Lift.{Lifts, first_bad_of_lines};
ghost use Rattle.lift_maker.specs.Placed.{IsPlacedIn};
ghost use Rattle.lift_maker.specs.Tested.{LiftsBy, LiftsTo};

use binary_places::{Asked, Binary, Placed, places};
use cfg_text::Fun;
use key_types::{Keys, Names, Seg};
use profile_maker::ask_blocks;
use profile_text::{Profile, read_behind, write};
use refusal::{NoMemory, Stop};
use repair_check::failed_line;
use repair_text::Repair;
use std::alloc::Global;

/// What lifting comes to.
#[derive(Debug, Drop)]
pub enum Lifted {
    /// The text of the profile.
    Text(Vec<u8>),
    /// The first line of the repairs, from 1, that fails its test.
    Failed(u64),
}

/// The profile in what was built of a binary and of these functions, the command's file `file`,
/// with the repaired counts of blocks on its lines. Its lines are judged as those of a profile,
/// then as those of the functions' repairs, and then these are tested as `check` tests them.
///
/// The text has at most 2^28 bytes, which is for the caller to judge.
///
/// # Errors
/// `Refused` at the first bad line, and `NoMemory`.
pub fn lift<'a>(
    alloc: Global,
    binary: Binary<'a>,
    funs: &[Fun<'_>],
    text: &'a [u8],
    file: u8,
) -> Result<Lifted, Stop>
    requires size { length text.now ≤ 2 ^ 28 }
    requires binary { (bytes : List ℕ) × (base : Bool) × IsBinary bytes base binary }
    requires sound { All (λ fun. IsSound fun.blocks fun.edges) funs.now }
    ensures { (bytes : List ℕ) (base : Bool) (blocks : List ℕ) → IsBinary bytes base binary.entry
        → map function_of funs.now ≡ functions_of blocks
        → JudgesUnlessNoMemory (first_bad_of_lines file (functions_of blocks) text.now) result
        (Lifts bytes base blocks text.now) }
{
    let placed = placed_for(alloc, binary, funs)?;
    let (mut names, mut keys) = (placed.names, placed.keys);
    let segments = placed.map.segments();
    lift_on(alloc, segments, funs, text, file, &mut names, &mut keys)
}

/// What lifting comes to on the segments of a binary, of these names and keys. Those of the text
/// are added to them.
fn lift_on<'a>(
    alloc: Global,
    segments: &[Seg],
    funs: &[Fun<'_>],
    text: &'a [u8],
    file: u8,
    names: &mut Names<'a>,
    keys: &mut Keys,
) -> Result<Lifted, Stop>
    requires size { length text.now ≤ 2 ^ 28 }
    requires segments { AreSegments segments.now }
    requires known { HaveKeys (length keys.old) segments.now }
    requires key_names { All (HasNames (length names.old)) keys.old }
    requires sound { All (λ fun. IsSound fun.blocks fun.edges) funs.now }
    ensures { (blocks : List ℕ) → map function_of funs.now ≡ functions_of blocks
        → JudgesUnlessNoMemory (first_bad_of_lines file (functions_of blocks) text.now) result
        (λ lifted. Kept names.old names.new × Kept keys.old keys.new
        × LiftsBy (way_in names.new keys.new segments.now) blocks text.now lifted) }
{
    let part = read_behind(alloc, text, file, names, keys)?;
    let repairs = repair_text::read(alloc, text, file, funs)?;
    let lifted = lift_read(alloc, &part, segments, funs, &repairs, keys, names)?;
    Ok(lifted)
}

/// What lifting comes to by what was read: these repairs are tested, and if all pass, stand on the
/// lines of this profile.
fn lift_read(
    alloc: Global,
    part: &Profile,
    segments: &[Seg],
    funs: &[Fun<'_>],
    repairs: &[Repair],
    keys: &Keys,
    names: &Names<'_>,
) -> Result<Lifted, NoMemory>
    requires segments { AreSegments segments.now }
    requires known { HaveKeys (length keys.now) segments.now }
    requires numbers { AreNumbersOf (length names.now) keys.now part.now.items }
    requires sound { All (λ fun. IsSound fun.blocks fun.edges) funs.now }
    requires told { AllZip IsToldOf (map function_of funs.now) (map numbered repairs.now) }
    ensures { IfOk result (LiftsTo
        (model.failed_line (map function_of funs.now) (map numbered repairs.now))
        (profile_text (lifted_by names.now keys.now segments.now
        (repaired funs.now repairs.now) part.now.items))) }
{
    let failed = failed_line(alloc, funs, repairs)?;
    if let Some(line) = failed {
        return Ok(Lifted::Failed(line));
    }
    let out = text_of(alloc, part, segments, funs, repairs, keys, names)?;
    Ok(Lifted::Text(out))
}

/// The places of a binary, of the functions that the blocks of these functions ask for.
fn placed_for<'a>(
    alloc: Global,
    binary: Binary<'a>,
    funs: &[Fun<'_>],
) -> Result<Placed<'a>, NoMemory>
    requires { (bytes : List ℕ) × (base : Bool) × IsBinary bytes base binary }
    ensures { IfOk result (λ placed. (bytes : List ℕ) (base : Bool)
        → IsBinary bytes base binary.entry
        → IsPlacedIn bytes base (map function_of funs.now) placed) }
{
    let mut asked = Asked::none(alloc, binary.members.len())?;
    ask_blocks(&binary.functions, funs, &mut asked);
    places(alloc, binary, &asked)
}

/// The text of a profile with repaired counts on its lines. Its numbers, and those of the segments,
/// are of these names and keys.
fn text_of(
    alloc: Global,
    part: &Profile,
    segments: &[Seg],
    funs: &[Fun<'_>],
    repairs: &[Repair],
    keys: &Keys,
    names: &Names<'_>,
) -> Result<Vec<u8>, NoMemory>
    requires segments { AreSegments segments.now }
    requires known { HaveKeys (length keys.now) segments.now }
    requires numbers { AreNumbersOf (length names.now) keys.now part.now.items }
    ensures { IfOk result (λ out. out.items ≡ profile_text (lifted_by names.now keys.now
        segments.now (repaired funs.now repairs.now) part.now.items)) }
{
    let tree = line_lift::lift(alloc, part, segments, funs, repairs, keys, names)?;
    let mut out = Vec::new(alloc);
    write(&tree, names, &mut out)?;
    Ok(out)
}
