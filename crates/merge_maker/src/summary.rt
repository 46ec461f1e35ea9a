// How hot the lines of a profile text are.
ghost use Rattle.std.specs.Prelude.{◌≡◌, ◌≤◌, ◌^◌, [], length};
ghost use Rattle.refusal.specs.Place.{JudgesUnlessNoMemory};
ghost use Rattle.profile_model.specs.Judging.{first_bad_of_profile};
ghost use Rattle.profile_model.specs.Spelled.{spelled};
ghost use Rattle.profile_model.specs.Summary.{summary_text};

use key_types::{Keys, Names};
use profile_merge::summary;
use profile_text::read;
use refusal::Stop;
use std::alloc::Global;

/// The summary of a profile text of at most 2^28 bytes, which is the command's file `file`.
///
/// # Errors
/// `Refused` at its first bad line, and `NoMemory`.
pub fn summarize(alloc: Global, text: &[u8], file: u8) -> Result<Vec<u8>, Stop>
    requires { length text.now ≤ 2 ^ 28 }
    ensures { JudgesUnlessNoMemory (first_bad_of_profile file text.now) result
        (λ out. out.items ≡ summary_text (spelled text.now)) }
{
    let mut names = Names::new(alloc)?;
    let mut keys = Keys::new(alloc)?;
    summary_read(alloc, text, file, &mut names, &mut keys)
}

/// The same by these names and keys, which are none before the text is read.
fn summary_read<'a>(
    alloc: Global,
    text: &'a [u8],
    file: u8,
    names: &mut Names<'a>,
    keys: &mut Keys,
) -> Result<Vec<u8>, Stop>
    requires size { length text.now ≤ 2 ^ 28 }
    requires no_names { names.old ≡ [] }
    requires no_keys { keys.old ≡ [] }
    ensures { JudgesUnlessNoMemory (first_bad_of_profile file text.now) result
        (λ out. out.items ≡ summary_text (spelled text.now)) }
{
    let part = read(alloc, text, file, names, keys)?;
    names.each_once();
    keys.each_once();
    let mut out = Vec::new(alloc);
    summary(alloc, &part, keys, &mut out)?;
    Ok(out)
}
