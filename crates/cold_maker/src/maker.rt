// A profile text with the lines that never ran.
ghost use Rattle.std.specs.Prelude.{◌≡◌, ◌≤◌, ◌^◌, ℕ, All, Bool, IfOk, List, [], length};
ghost use Rattle.refusal.specs.Place.{JudgesUnlessNoMemory};
ghost use Rattle.binary_places.specs.Binary.{IsBinary, IsPlaced};
ghost use Rattle.cold_maker.specs.Besides.{first_ways};
ghost use Rattle.cold_model.specs.Cold.{cold_lines_of};
ghost use Rattle.output_model.specs.Cold.{cold_output};
ghost use Rattle.profile_model.specs.Judging.{first_bad_of_profile};
ghost use Rattle.profile_model.specs.Spelled.{spelled};
ghost use Rattle.profile_model.specs.Text.{text_of_lines};
ghost use Rattle.profile_text.specs.Numbers.{AreNumbersOf, counted};
ghost use Rattle.profile_tree.specs.Known.{HasNames};

use crate::tree::tree_of;
use binary_places::{Asked, Binary, Placed, places};
use key_types::{Keys, Names};
use profile_text::{Profile, read_behind, write};
use refusal::{NoMemory, Stop};
use std::alloc::Global;

/// The profile of a profile text, which is the command's file `file`, with a line of count 0 for
/// each place of the binary that has none and whose function stands in the profile. Lines of count
/// 0 that the text has stay. Comments are not kept, and totals are summed anew.
///
/// The text has at most 2^28 bytes.
///
/// # Errors
/// `Refused` at the first bad line of the text, and `NoMemory`.
pub fn cold<'a>(
    alloc: Global,
    binary: Binary<'a>,
    text: &'a [u8],
    file: u8,
) -> Result<Vec<u8>, Stop>
    requires size { length text.now ≤ 2 ^ 28 }
    requires binary { (bytes : List ℕ) × (base : Bool) × IsBinary bytes base binary }
    ensures { (bytes : List ℕ) (base : Bool) → IsBinary bytes base binary.entry →
        JudgesUnlessNoMemory (first_bad_of_profile file text.now) result
        (λ out. out.items ≡ cold_output base bytes text.now) }
{
    let asked = Asked::all(alloc);
    let placed = places(alloc, binary, &asked)?;
    cold_of(alloc, placed, text, file)
}

/// The same by the places of a binary, all of which were asked for.
fn cold_of<'a>(alloc: Global, placed: Placed<'a>, text: &'a [u8], file: u8) -> Result<Vec<u8>, Stop>
    requires size { length text.now ≤ 2 ^ 28 }
    requires placed { (bytes : List ℕ) × (base : Bool) × IsPlaced bytes base [] placed }
    ensures { (bytes : List ℕ) (base : Bool) → IsPlaced bytes base [] placed.entry →
        JudgesUnlessNoMemory (first_bad_of_profile file text.now) result
        (λ out. out.items ≡ cold_output base bytes text.now) }
{
    let (mut names, mut keys) = (placed.names, placed.keys);
    cold_behind(alloc, text, file, &mut names, &mut keys)
}

/// The text of a profile text, read behind these names and keys, in which each of these keys whose
/// function stands there has a line.
fn cold_behind<'a>(
    alloc: Global,
    text: &'a [u8],
    file: u8,
    names: &mut Names<'a>,
    keys: &mut Keys,
) -> Result<Vec<u8>, Stop>
    requires size { length text.now ≤ 2 ^ 28 }
    requires key_names { All (HasNames (length names.old)) keys.old }
    ensures { JudgesUnlessNoMemory (first_bad_of_profile file text.now) result (λ out. out.items
        ≡ text_of_lines (cold_lines_of (first_ways names.old keys.old (length keys.old))
        (spelled text.now))) }
{
    let known = keys.len();
    names.each_once();
    keys.each_once();
    let part = read_behind(alloc, text, file, names, keys)?;
    let out = text_of(alloc, &part, known, keys, names)?;
    Ok(out)
}

/// The text of a profile in which each of the first `known` keys whose function stands there has a
/// line.
fn text_of(
    alloc: Global,
    part: &Profile,
    known: u32,
    keys: &Keys,
    names: &Names,
) -> Result<Vec<u8>, NoMemory>
    requires known { known ≤ length keys.now }
    requires numbers { AreNumbersOf (length names.now) keys.now part.now.items }
    ensures { IfOk result (λ out. out.items
        ≡ text_of_lines (cold_lines_of (first_ways names.now keys.now known)
        (counted names.now keys.now part.now.items))) }
{
    let tree = tree_of(alloc, part, known, keys, names)?;
    let mut out = Vec::new(alloc);
    write(&tree, names, &mut out)?;
    Ok(out)
}
