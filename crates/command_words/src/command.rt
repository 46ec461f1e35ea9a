ghost use Rattle.std.specs.Prelude.{◌≡◌, ◌≤◌, length, map, option_and_then};
ghost use Rattle.std.specs.Int.NonZero.{non_zero_u16_get};
ghost use Rattle.std.specs.Option.{option_map};
ghost use Rattle.command_model.specs.Command.{address_of as address_told, build_of, check_of, command_of, counts_of, digits_of as digits_told, functions_of as functions_told, lift_of, made_of as made_told, make_of, merge_of, parts_of as parts_told, profile_of, summary_of, weight_of as weight_told, where_of};
ghost use Rattle.command_model.specs.Options.{is_option as option_told, option_count as count_told};
ghost use Rattle.command_words.specs.Words.{few, meaning_of, texts_of, told_weighed};

use crate::options::{Has, Options, options_of};
use arrayvec::ArrayVec;
use case_maker::{CasePart, MAX_FUNCTIONS};
use std::num::NonZeroU16;
use text_scan::{decimal, hex};

/// The most digits of an address.
const MAX_DIGITS: usize = 16;

/// The greatest weight.
const MAX_WEIGHT: u64 = 65_535;

/// The most files of a merge.
// Why: Texts, from which names are borrowed, and sums have to fit one machine. Trees are for more.
pub const MAX_PARTS: usize = 8;

/// The options of `where`, of `lift` and of `pgo-cold`.
pub(crate) const BASE_HAS: Has = Has {
    map: false,
    base: true,
    edges: false,
    scaled: false,
};

/// The options of `profile`.
pub(crate) const PROFILE_HAS: Has = Has {
    map: true,
    base: true,
    edges: false,
    scaled: false,
};

/// The options of `build`.
const BUILD_HAS: Has = Has {
    map: true,
    base: true,
    edges: true,
    scaled: true,
};

/// A file of a merge, with its weight: how often it counts.
#[derive(Clone, Copy, Debug)]
pub struct Part<'a> {
    pub weight: NonZeroU16,
    pub file: &'a [u8],
}

// What stands in the places of a list that have no file yet.
impl Default for Part<'_> {
    fn default() -> Self {
        Part {
            weight: NonZeroU16::MIN,
            file: &[],
        }
    }
}

/// What a user asks for. Files are told by their names, as they stand among the words.
#[derive(Debug, Drop)]
pub enum Command<'a> {
    /// The branches of this branch text, counted.
    Counts(&'a [u8]),
    /// The place of an address of this binary.
    Where {
        options: Options<'a>,
        binary: &'a [u8],
        address: u64,
    },
    /// The profile of this binary and this branch text, and the report on it.
    Profile {
        options: Options<'a>,
        binary: &'a [u8],
        perf: &'a [u8],
    },
    /// The profile of this binary and this branch text, a repair of each function of this block
    /// text, and the report.
    Build {
        options: Options<'a>,
        binary: &'a [u8],
        perf: &'a [u8],
        blocks: &'a [u8],
    },
    /// Whether the repairs of this repair text keep what they promise of the functions of this
    /// block text.
    Check {
        blocks: &'a [u8],
        repairs: &'a [u8],
    },
    /// A file of the generated case of so many functions.
    Make {
        part: CasePart,
        functions: u64,
    },
    /// The summary of what is built of the three files of such a case.
    MakeSum {
        functions: u64,
    },
    /// The sum of the profiles in these files.
    Merge(ArrayVec<Part<'a>, MAX_PARTS>),
    /// How hot the lines of the profile in this file are.
    Summary(&'a [u8]),
    /// The profile in what was built of this binary and this block text, with the repaired counts
    /// of blocks on its lines.
    Lift {
        options: Options<'a>,
        binary: &'a [u8],
        blocks: &'a [u8],
        built: &'a [u8],
    },
}

/// The command that the words behind the program's name spell, if they spell one.
#[tactic(auto, unfolding(command_model::specs::Command::command_of))]
pub fn parse(words: &[Vec<u8>]) -> Option<Command<'_>>
    ensures { option_map meaning_of result ≡ command_of (texts_of words.now) }
{
    let Some((name, words)) = words.split_first() else {
        return None;
    };
    let (options, operands) = words.split_at(option_count(words));
    if name.as_slice() == b"counts".as_slice() {
        parse_counts(options, operands)
    } else if name.as_slice() == b"where".as_slice() {
        parse_where(options, operands)
    } else if name.as_slice() == b"profile".as_slice() {
        parse_profile(options, operands)
    } else if name.as_slice() == b"build".as_slice() {
        parse_build(options, operands)
    } else if name.as_slice() == b"check".as_slice() {
        parse_check(options, operands)
    } else if name.as_slice() == b"make".as_slice() {
        parse_make(options, operands)
    } else if name.as_slice() == b"merge".as_slice() {
        parse_merge(options, operands)
    } else if name.as_slice() == b"summary".as_slice() {
        parse_summary(options, operands)
    } else if name.as_slice() == b"lift".as_slice() {
        parse_lift(options, operands)
    } else {
        None
    }
}

/// How many words in front are options.
pub(crate) fn option_count(words: &[Vec<u8>]) -> usize
    ensures counted { result ≡ count_told (texts_of words.now) }
    ensures within { result ≤ length words.now }
{
    let mut count = 0;
    for word in words {
        if !is_option(word) {
            return count;
        }
        count += 1;
    }
    count
}

/// Whether a word begins with `--`.
fn is_option(word: &[u8]) -> bool
    ensures { result ≡ option_told word.now }
{
    word.starts_with(b"--")
}

/// `counts PERF`
fn parse_counts<'a>(options: &[Vec<u8>], operands: &'a [Vec<u8>]) -> Option<Command<'a>>
    ensures { option_map meaning_of result
        ≡ counts_of (texts_of options.now) (texts_of operands.now) }
{
    match (options, operands) {
        ([], [perf]) => Some(Command::Counts(perf)),
        _ => None,
    }
}

/// `where [--base] BIN HEX`
fn parse_where<'a>(options: &'a [Vec<u8>], operands: &'a [Vec<u8>]) -> Option<Command<'a>>
    ensures { option_map meaning_of result
        ≡ where_of (texts_of options.now) (texts_of operands.now) }
{
    match operands {
        [binary, hex] => Some(Command::Where {
            options: options_of(BASE_HAS, options)?,
            binary,
            address: address_of(hex)?,
        }),
        _ => None,
    }
}

/// `profile [--map=NAME] [--base] BIN PERF`
fn parse_profile<'a>(options: &'a [Vec<u8>], operands: &'a [Vec<u8>]) -> Option<Command<'a>>
    ensures { option_map meaning_of result
        ≡ profile_of (texts_of options.now) (texts_of operands.now) }
{
    match operands {
        [binary, perf] => Some(Command::Profile {
            options: options_of(PROFILE_HAS, options)?,
            binary,
            perf,
        }),
        _ => None,
    }
}

/// `build [--map=NAME] [--base] [--edges] [--scaled] BIN PERF CFG`
fn parse_build<'a>(options: &'a [Vec<u8>], operands: &'a [Vec<u8>]) -> Option<Command<'a>>
    ensures { option_map meaning_of result
        ≡ build_of (texts_of options.now) (texts_of operands.now) }
{
    match operands {
        [binary, perf, blocks] => Some(Command::Build {
            options: options_of(BUILD_HAS, options)?,
            binary,
            perf,
            blocks,
        }),
        _ => None,
    }
}

/// `check CFG OUT`
fn parse_check<'a>(options: &[Vec<u8>], operands: &'a [Vec<u8>]) -> Option<Command<'a>>
    ensures { option_map meaning_of result
        ≡ check_of (texts_of options.now) (texts_of operands.now) }
{
    match (options, operands) {
        ([], [blocks, repairs]) => Some(Command::Check { blocks, repairs }),
        _ => None,
    }
}

/// `make N bin|perf|cfg|sum`
fn parse_make<'a>(options: &[Vec<u8>], operands: &'a [Vec<u8>]) -> Option<Command<'a>>
    ensures { option_map meaning_of result
        ≡ make_of (texts_of options.now) (texts_of operands.now) }
{
    match (options, operands) {
        ([], [number, what]) => made_of(what, functions_of(number)?),
        _ => None,
    }
}

/// What is made of a case of so many functions.
fn made_of(what: &[u8], functions: u64) -> Option<Command<'_>>
    ensures { option_map meaning_of result ≡ made_told what.now functions }
{
    if what == b"bin".as_slice() {
        Some(Command::Make {
            part: CasePart::Bin,
            functions,
        })
    } else if what == b"perf".as_slice() {
        Some(Command::Make {
            part: CasePart::Perf,
            functions,
        })
    } else if what == b"cfg".as_slice() {
        Some(Command::Make {
            part: CasePart::Cfg,
            functions,
        })
    } else if what == b"sum".as_slice() {
        Some(Command::MakeSum { functions })
    } else {
        None
    }
}

/// The number of functions that decimal digits spell.
fn functions_of(word: &[u8]) -> Option<u64>
    ensures { result ≡ functions_told word.now }
{
    match decimal(word) {
        Ok(functions) if functions <= MAX_FUNCTIONS => Some(functions),
        Ok(_) => None,
        Err(_) => None,
    }
}

/// `merge W FILE [W FILE]..`
fn parse_merge<'a>(options: &[Vec<u8>], operands: &'a [Vec<u8>]) -> Option<Command<'a>>
    ensures { option_map meaning_of result
        ≡ merge_of (texts_of options.now) (texts_of operands.now) }
{
    if !options.is_empty() {
        return None;
    }
    let parts = parts_of(operands)?;
    if parts.is_empty() {
        return None;
    }
    Some(Command::Merge(parts))
}

/// Files, each behind its weight, if there are not too many.
fn parts_of(words: &[Vec<u8>]) -> Option<ArrayVec<Part<'_>, MAX_PARTS>>
    ensures { option_map (λ parts. map told_weighed parts.items) result
        ≡ option_and_then few (parts_told (texts_of words.now)) }
{
    let mut parts = ArrayVec::new();
    let mut left = words;
    while let Some((weight, behind)) = left.split_first() {
        let (file, rest) = behind.split_first()?;
        let weight = weight_of(weight)?;
        if parts.is_full() {
            return None;
        }
        parts.push(Part { weight, file });
        left = rest;
    }
    Some(parts)
}

/// The weight that decimal digits spell.
fn weight_of(word: &[u8]) -> Option<NonZeroU16>
    ensures { option_map non_zero_u16_get result ≡ weight_told word.now }
{
    match decimal(word) {
        Ok(weight) if weight <= MAX_WEIGHT => NonZeroU16::new(weight as u16),
        Ok(_) => None,
        Err(_) => None,
    }
}

/// `summary FILE`
fn parse_summary<'a>(options: &[Vec<u8>], operands: &'a [Vec<u8>]) -> Option<Command<'a>>
    ensures { option_map meaning_of result
        ≡ summary_of (texts_of options.now) (texts_of operands.now) }
{
    match (options, operands) {
        ([], [file]) => Some(Command::Summary(file)),
        _ => None,
    }
}

/// `lift [--base] BIN CFG OUT`
fn parse_lift<'a>(options: &'a [Vec<u8>], operands: &'a [Vec<u8>]) -> Option<Command<'a>>
    ensures { option_map meaning_of result
        ≡ lift_of (texts_of options.now) (texts_of operands.now) }
{
    match operands {
        [binary, blocks, built] => Some(Command::Lift {
            options: options_of(BASE_HAS, options)?,
            binary,
            blocks,
            built,
        }),
        _ => None,
    }
}

/// The digits of an address, which may stand behind `0x`.
fn digits_of(word: &[u8]) -> &[u8]
    ensures { result.now ≡ digits_told word.now }
{
    match word.strip_prefix(b"0x") {
        Some(digits) => digits,
        None => word,
    }
}

/// The address that one to sixteen hexadecimal digits spell, with `0x` before them or not.
#[tactic(auto, unfolding(command_model::specs::Command::address_of))]
fn address_of(word: &[u8]) -> Option<u64>
    ensures { result ≡ address_told word.now }
{
    let digits = digits_of(word);
    if digits.len() > MAX_DIGITS {
        return None;
    }
    match hex(digits) {
        Ok(address) => Some(address),
        Err(_) => None,
    }
}
