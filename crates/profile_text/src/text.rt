// All lines.
ghost use Rattle.std.specs.Prelude.{◌≡◌, ◌++◌, map, OnErr, OnOk};
ghost use Rattle.std.specs.Io.{StartsWith};
ghost use Rattle.std.specs.List.{All};
ghost use Rattle.profile_model.specs.Text.{text_of_lines};
ghost use Rattle.profile_tree.specs.Told.{IsOf, told};

use crate::line::push_line;
use key_types::Names;
use profile_tree::Tree;
use refusal::NoMemory;

/// Appends the lines of a tree, whose names have their numbers from `names`.
///
/// A function is `NAME:TOTAL:HEAD`. Below it, one space further in, stand its body lines
/// `OFFSET[.DISC]: COUNT` with ` CALLEE:COUNT` for each target, and its inlined calls
/// `OFFSET[.DISC]: CALLEE:TOTAL`. A discriminator 0 is left out.
///
/// # Errors
/// `NoMemory`, and `out` may have grown: what it held stands at its front.
///
/// Source: LLVM, SampleProfReader.h, "Text format".
#[tactic(auto, using(text_scan::proofs::Growth::still_in_front), unfolding(profile_model::specs::Text::text_of_lines))]
pub fn write(tree: &Tree, names: &Names, out: &mut Vec<u8>) -> Result<(), NoMemory>
    requires { All (IsOf names.now) tree.now.lines }
    ensures appended { OnOk result (out.new.items
        ≡ out.old.items ++ text_of_lines (map (told names.now) tree.now.lines)) }
    ensures grows { OnErr result (StartsWith out.new.items out.old.items) }
{
    for line in tree.lines.as_slice() {
        push_line(out, names, line)?;
        out.push(b'\n')?;
    }
    Ok(())
}
