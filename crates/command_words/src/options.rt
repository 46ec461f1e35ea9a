// The options of a command: the words in front that begin with `--`.
ghost use Rattle.std.specs.Prelude.{◌≡◌, ◌≤◌, count_by, length};
ghost use Rattle.std.specs.List.{list_all};
ghost use Rattle.std.specs.Option.{option_map};
ghost use Rattle.std.specs.Str.{bytes_eq};
ghost use Rattle.command_model.specs.Options.{are_of as are_told, first_map, is_map as map_told, is_of as of_told, map_name as name_told, options_of as options_told};
ghost use Rattle.command_words.specs.Words.{texts_of, told_has, told_options};

use output_model::RepairOptions;

/// The option for bases in place of discriminators.
const BASE: &[u8] = b"--base";

/// The option for weights of edges.
const EDGES: &[u8] = b"--edges";

/// The option for repairs within a bound on augmentations.
const SCALED: &[u8] = b"--scaled";

/// What the options of a command say. A command without one of them is carried out as where it is
/// not given.
#[derive(Clone, Copy, Debug)]
pub struct Options<'a> {
    /// `--map=NAME`: the name of the binary in load lines, which move addresses; without it they
    /// stay.
    pub map: Option<&'a [u8]>,
    /// `--base`: whether bases stand in place of discriminators.
    pub base: bool,
    /// `--edges` and `--scaled`: what is asked of repairs.
    pub repairs: RepairOptions,
}

/// Which options a command has.
#[derive(Clone, Copy, Debug)]
pub(crate) struct Has {
    pub(crate) map: bool,
    pub(crate) base: bool,
    pub(crate) edges: bool,
    pub(crate) scaled: bool,
}

/// What these words say, in any order: each an option that the command has, and none twice.
#[tactic(auto, unfolding(command_model::specs::Options::options_of))]
pub(crate) fn options_of(has: Has, words: &[Vec<u8>]) -> Option<Options<'_>>
    ensures { option_map told_options result ≡ options_told (told_has has) (texts_of words.now) }
{
    if !are_of(has, words) {
        return None;
    }
    Some(Options {
        map: map_asked(words),
        base: times_of(BASE, words) > 0,
        repairs: RepairOptions {
            edges: times_of(EDGES, words) > 0,
            scaled: times_of(SCALED, words) > 0,
        },
    })
}

/// Whether each word is an option that the command has, and none stands twice.
fn are_of(has: Has, words: &[Vec<u8>]) -> bool
    ensures { result ≡ are_told (told_has has) (texts_of words.now) }
{
    all_of(has, words)
        && maps(words) < 2
        && times_of(BASE, words) < 2
        && times_of(EDGES, words) < 2
        && times_of(SCALED, words) < 2
}

/// Whether each word is an option that the command has.
fn all_of(has: Has, words: &[Vec<u8>]) -> bool
    ensures { result ≡ list_all (of_told (told_has has)) (texts_of words.now) }
{
    for word in words {
        if !is_of(has, word) {
            return false;
        }
    }
    true
}

/// Whether a word is an option that the command has.
fn is_of(has: Has, word: &[u8]) -> bool
    ensures { result ≡ of_told (told_has has) word.now }
{
    (has.map && map_name(word).is_some())
        || (has.base && word == BASE)
        || (has.edges && word == EDGES)
        || (has.scaled && word == SCALED)
}

/// How many of the words are `--map=NAME`.
fn maps(words: &[Vec<u8>]) -> usize
    ensures { result ≡ count_by map_told (texts_of words.now) }
{
    let mut count = 0;
    for word in words {
        if map_name(word).is_some() {
            count += 1;
        }
    }
    count
}

/// How many of the words are this option.
fn times_of(option: &[u8], words: &[Vec<u8>]) -> usize
    ensures { result ≡ count_by (λ word. bytes_eq word option.now) (texts_of words.now) }
{
    let mut count = 0;
    for word in words {
        if word.as_slice() == option {
            count += 1;
        }
    }
    count
}

/// The first name that a word `--map=NAME` has.
fn map_asked(words: &[Vec<u8>]) -> Option<&[u8]>
    ensures { option_map (λ name. name.now) result ≡ first_map (texts_of words.now) }
{
    for word in words {
        if let Some(name) = map_name(word) {
            return Some(name);
        }
    }
    None
}

/// The name in a word `--map=NAME`, which is not empty.
#[tactic(auto, unfolding(command_model::specs::Options::map_name))]
fn map_name(word: &[u8]) -> Option<&[u8]>
    ensures { option_map (λ name. name.now) result ≡ name_told word.now }
{
    match word.strip_prefix(b"--map=") {
        Some([]) | None => None,
        name => name,
    }
}
