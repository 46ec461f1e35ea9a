// The words of `pgo-cold`.
ghost use Rattle.std.specs.Prelude.{◌≡◌};
ghost use Rattle.std.specs.Option.{option_map};
ghost use Rattle.command_model.specs.Cold.{cold_by, cold_of, named_by, profile_by};
ghost use Rattle.command_words.specs.Words.{cold_meaning, texts_of};

use crate::command::{BASE_HAS, PROFILE_HAS, option_count};
use crate::options::{Options, options_of};

/// What `pgo-cold` is asked for: a profile with a line for each place of this binary in the
/// functions that the profile has. Files are told by their names, as they stand among the words.
#[derive(Clone, Copy, Debug)]
pub enum Cold<'a> {
    /// The profile in this file.
    Text {
        options: Options<'a>,
        binary: &'a [u8],
        profile: &'a [u8],
    },
    /// The profile of this binary and this branch text, and the report on it.
    Profile {
        options: Options<'a>,
        binary: &'a [u8],
        perf: &'a [u8],
    },
}

/// What the words behind the program's name ask `pgo-cold` for, if they ask for something.
#[tactic(auto, unfolding(command_model::specs::Cold::cold_of))]
pub fn parse_cold(words: &[Vec<u8>]) -> Option<Cold<'_>>
    ensures { option_map cold_meaning result ≡ cold_of (texts_of words.now) }
{
    let (options, operands) = words.split_at(option_count(words));
    cold_in(options, operands)
}

/// `[--base] BIN PROFILE`, and else `profile` and what stands behind it.
fn cold_in<'a>(options: &'a [Vec<u8>], operands: &'a [Vec<u8>]) -> Option<Cold<'a>>
    ensures { option_map cold_meaning result
        ≡ cold_by (texts_of options.now) (texts_of operands.now) }
{
    match (options, operands) {
        (_, [binary, profile]) => Some(Cold::Text {
            options: options_of(BASE_HAS, options)?,
            binary,
            profile,
        }),
        ([], [name, words @ ..]) => named_in(name, words),
        _ => None,
    }
}

/// What stands behind a first word that is no option, if that is `profile`.
fn named_in<'a>(name: &[u8], words: &'a [Vec<u8>]) -> Option<Cold<'a>>
    ensures { option_map cold_meaning result ≡ named_by name.now (texts_of words.now) }
{
    if name != b"profile".as_slice() {
        return None;
    }
    let (options, operands) = words.split_at(option_count(words));
    profile_in(options, operands)
}

/// `[--map=NAME] [--base] BIN PERF`
fn profile_in<'a>(options: &'a [Vec<u8>], operands: &'a [Vec<u8>]) -> Option<Cold<'a>>
    ensures { option_map cold_meaning result
        ≡ profile_by (texts_of options.now) (texts_of operands.now) }
{
    match operands {
        [binary, perf] => Some(Cold::Profile {
            options: options_of(PROFILE_HAS, options)?,
            binary,
            perf,
        }),
        _ => None,
    }
}
