// One line of a block text, read apart from the others.
ghost use Rattle.std.specs.Prelude.{◌≡◌, ◌∷◌};
ghost use Rattle.std.specs.Option.{option_map};
ghost use Rattle.text_model.specs.Fields.{fields_of};
ghost use Rattle.text_model.specs.LineTests.{is_comment as comment};
ghost use Rattle.block_model.specs.Line as model;
ghost use Rattle.cfg_text.specs.Said.{meaning_of};

use block_model::{Block, Bound};
use text_scan::{Fields, decimal, prefixed};

/// A bound on a count is below this.
const BOUND_LIMIT: u64 = 1 << 44;

/// What a line says.
#[derive(Clone, Copy, Debug)]
pub(crate) enum BlockLine<'a> {
    /// Nothing: it is blank or a comment.
    Nothing,
    /// A function of this name begins.
    Begins(&'a [u8]),
    /// A block of this number.
    Block(u64, Block),
    /// An edge between the blocks of these numbers.
    Edge(u64, u64, Bound),
    /// The function ends.
    Ends,
}

/// What a line says, if it has the form of one.
#[tactic(auto, unfolding(block_model::specs::Line::line_of))]
pub(crate) fn read_line(line: &[u8]) -> Option<BlockLine<'_>>
    ensures { option_map meaning_of result ≡ model.line_of line.now }
{
    if line.starts_with(b"#") {
        return Some(BlockLine::Nothing);
    }
    read_fields(Fields::new(line))
}

/// What the fields of a line say.
#[tactic(auto, unfolding(block_model::specs::Line::line_by_fields))]
fn read_fields(mut fields: Fields<'_>) -> Option<BlockLine<'_>>
    ensures { option_map meaning_of result ≡ model.line_by_fields fields.entry }
{
    let Some(word) = fields.next() else {
        return Some(BlockLine::Nothing);
    };
    if word == b"block".as_slice() {
        block_line(fields)
    } else if word == b"edge".as_slice() {
        edge_line(fields)
    } else if word == b"func".as_slice() {
        func_line(fields)
    } else if word == b"end".as_slice() {
        end_line(fields)
    } else {
        None
    }
}

/// `NAME`
fn func_line(mut fields: Fields<'_>) -> Option<BlockLine<'_>>
    ensures { option_map meaning_of result ≡ model.func_line_of fields.entry }
{
    let name = fields.next()?;
    if fields.next().is_some() {
        return None;
    }
    Some(BlockLine::Begins(name))
}

/// Nothing more.
fn end_line(mut fields: Fields<'_>) -> Option<BlockLine<'_>>
    ensures { option_map meaning_of result ≡ model.end_line_of fields.entry }
{
    if fields.next().is_some() {
        return None;
    }
    Some(BlockLine::Ends)
}

/// `N 0xLO 0xHI [exit] [bound]`
#[tactic(auto, unfolding(block_model::specs::Line::block_line_of))]
fn block_line(mut fields: Fields<'_>) -> Option<BlockLine<'_>>
    ensures { option_map meaning_of result ≡ model.block_line_of fields.entry }
{
    let number = fields.next()?;
    let lo = fields.next()?;
    let hi = fields.next()?;
    let number = place_of(number)?;
    let lo = address(lo)?;
    let hi = address(hi)?;
    let (exit, bound) = exit_and_bound(fields)?;
    let block = Block {
        lo,
        hi,
        exit,
        bound,
    };
    Some(BlockLine::Block(number, block))
}

/// `N M [bound]`
#[tactic(auto, unfolding(block_model::specs::Line::edge_line_of))]
fn edge_line(mut fields: Fields<'_>) -> Option<BlockLine<'_>>
    ensures { option_map meaning_of result ≡ model.edge_line_of fields.entry }
{
    let from = fields.next()?;
    let to = fields.next()?;
    let from = place_of(from)?;
    let to = place_of(to)?;
    let bound = bound(false, fields)?;
    Some(BlockLine::Edge(from, to, bound))
}

/// `[exit] [bound]`
#[tactic(auto, unfolding(block_model::specs::Line::bound_of))]
fn exit_and_bound(mut fields: Fields<'_>) -> Option<(bool, Bound)>
    ensures { result ≡ model.exit_and_bound_of fields.entry }
{
    let Some(word) = fields.next() else {
        return Some((false, UNBOUNDED));
    };
    if word == b"exit".as_slice() {
        Some((true, bound(true, fields)?))
    } else {
        Some((false, bound_behind(true, word, fields)?))
    }
}

/// No bound but that a count is not below 0.
const UNBOUNDED: Bound = Bound {
    lower: 0,
    upper: None,
};

/// `[bound]`; a block's may be `ran`.
#[tactic(auto, unfolding(block_model::specs::Line::bound_of))]
fn bound(for_block: bool, mut fields: Fields<'_>) -> Option<Bound>
    ensures { result ≡ model.bound_of for_block fields.entry }
{
    match fields.next() {
        Some(word) => bound_behind(for_block, word, fields),
        None => Some(UNBOUNDED),
    }
}

/// A bound of which the first word was taken.
#[tactic(auto, unfolding(block_model::specs::Line::bound_of))]
fn bound_behind(for_block: bool, word: &[u8], mut fields: Fields<'_>) -> Option<Bound>
    ensures { result ≡ model.bound_of for_block (word.now ∷ fields.entry) }
{
    let Some(high) = fields.next() else {
        return bound_by_word(for_block, word);
    };
    if fields.next().is_some() {
        return None;
    }
    bound_by_words(word, high)
}

/// `never`, `lo=A` or `hi=B`, and for a block `ran`
#[tactic(auto, unfolding(block_model::specs::Line::bound_by_word))]
fn bound_by_word(for_block: bool, word: &[u8]) -> Option<Bound>
    ensures { result ≡ model.bound_by_word for_block word.now }
{
    if word == b"never".as_slice() {
        return Some(at_most(0));
    }
    if for_block && word == b"ran".as_slice() {
        return Some(at_least(1));
    }
    match count_behind(b"lo=", word) {
        Some(lower) => Some(at_least(lower)),
        None => Some(at_most(count_behind(b"hi=", word)?)),
    }
}

/// `lo=A hi=B`
#[tactic(auto, unfolding(block_model::specs::Line::bound_by_words))]
fn bound_by_words(low: &[u8], high: &[u8]) -> Option<Bound>
    ensures { result ≡ model.bound_by_words low.now high.now }
{
    let lower = count_behind(b"lo=", low)?;
    let upper = count_behind(b"hi=", high)?;
    Some(Bound {
        lower,
        upper: Some(upper),
    })
}

/// At least so often.
fn at_least(lower: u64) -> Bound
    ensures { result ≡ model.at_least lower }
{
    Bound { lower, upper: None }
}

/// At most so often.
fn at_most(upper: u64) -> Bound
    ensures { result ≡ model.at_most upper }
{
    Bound {
        lower: 0,
        upper: Some(upper),
    }
}

/// The bound on a count behind such a front.
#[tactic(auto, unfolding(block_model::specs::Line::bounded_by))]
fn count_behind(front: &[u8], word: &[u8]) -> Option<u64>
    ensures { result ≡ model.bounded_by front.now word.now }
{
    count_of(behind(front, word)?)
}

/// What stands behind a front, if that is how the word begins.
fn behind<'a>(front: &[u8], word: &'a [u8]) -> Option<&'a [u8]>
    ensures { option_map (λ rest. rest.now) result ≡ model.behind front.now word.now }
{
    match word.strip_prefix(front) {
        Some(rest) => Some(rest),
        None => None,
    }
}

/// A bound on a count, or a weight: decimal, below 2^44.
pub fn count_of(digits: &[u8]) -> Option<u64>
    ensures { result ≡ model.count_of digits.now }
{
    match decimal(digits) {
        Ok(count) if count < BOUND_LIMIT => Some(count),
        Ok(_) => None,
        Err(_) => None,
    }
}

/// The number of a block, or a count: decimal, of 64 bits.
pub fn place_of(field: &[u8]) -> Option<u64>
    ensures { result ≡ model.place_of field.now }
{
    decimal(field).ok()
}

/// An address: hexadecimal behind `0x`.
fn address(field: &[u8]) -> Option<u64>
    ensures { result ≡ model.address_of field.now }
{
    prefixed(field).ok()
}
