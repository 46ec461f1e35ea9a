// One line of a repair text, read apart from the others.
ghost use Rattle.std.specs.Prelude.{◌≡◌, codes, None, Some, MatchOption, if◌then◌else◌};
ghost use Rattle.std.specs.Option.{option_map};
ghost use Rattle.std.specs.Str.{bytes_eq};
ghost use Rattle.repair_model.specs.Line as model;
ghost use Rattle.repair_text.specs.Said.{meaning_of};

use cfg_text::{Weight, count_of, place_of};
use text_scan::{Fields, signed, wide};

/// What a line says.
#[derive(Clone, Copy, Debug)]
pub(crate) enum RepairLine<'a> {
    /// Counts of the function of this name begin.
    Flow(&'a [u8]),
    /// A cut of the function of this name begins; whether the root is in it.
    Cut(&'a [u8], bool),
    /// A block's number and weight, its count, and the prices where it is entered and left.
    Count(u64, Weight, u64, i64, i64),
    /// A block's number and weight, and whether the cut has the sides where it is entered and left.
    Sides(u64, Weight, bool, bool),
    /// The two blocks of an edge, its weight if that stands there, and its count.
    Edge(u64, u64, Option<Weight>, u64),
    /// Counts end; what they cost.
    EndOfFlow(u128),
    /// A cut ends; its two sums.
    EndOfCut(u128, u128),
}

/// What a line says, if it has the form of one.
#[tactic(auto, unfolding(repair_model::specs::Line::line_of))]
pub(crate) fn read_line(line: &[u8]) -> Option<RepairLine<'_>>
    ensures { option_map meaning_of result ≡ model.line_of line.now }
{
    let mut fields = Fields::new(line);
    let mark = fields.next()?;
    if mark != b"#".as_slice() {
        return None;
    }
    read_fields(fields)
}

/// What the fields of a line behind `#` say.
#[tactic(auto, unfolding(repair_model::specs::Line::line_by_fields))]
fn read_fields(mut fields: Fields<'_>) -> Option<RepairLine<'_>>
    ensures { option_map meaning_of result ≡ model.line_by_fields fields.entry }
{
    let word = fields.next()?;
    if word == b"block".as_slice() {
        block_line(fields)
    } else if word == b"edge".as_slice() {
        edge_line(fields)
    } else if word == b"end".as_slice() {
        end_line(fields)
    } else if word == b"function".as_slice() {
        function_line(fields)
    } else {
        None
    }
}

/// `NAME flow` or `NAME cut R`
#[tactic(auto, unfolding(repair_model::specs::Line::function_line_of))]
fn function_line(mut fields: Fields<'_>) -> Option<RepairLine<'_>>
    ensures { option_map meaning_of result ≡ model.function_line_of fields.entry }
{
    let name = fields.next()?;
    let word = fields.next()?;
    let Some(root) = fields.next() else {
        return begin_of_flow(name, word);
    };
    if fields.next().is_some() {
        return None;
    }
    begin_of_cut(name, word, root)
}

/// `NAME flow`
fn begin_of_flow<'a>(name: &'a [u8], word: &[u8]) -> Option<RepairLine<'a>>
    ensures { option_map meaning_of result ≡ (if bytes_eq word.now (codes "flow")
        then Some (model.begins_flow name.now)
        else None) }
{
    if word == b"flow".as_slice() {
        Some(RepairLine::Flow(name))
    } else {
        None
    }
}

/// `NAME cut R`
fn begin_of_cut<'a>(name: &'a [u8], word: &[u8], root: &[u8]) -> Option<RepairLine<'a>>
    ensures { option_map meaning_of result ≡ (if bytes_eq word.now (codes "cut")
        then option_map (model.begins_cut name.now) (model.bit_of root.now)
        else None) }
{
    if word == b"cut".as_slice() {
        Some(RepairLine::Cut(name, bit(root)?))
    } else {
        None
    }
}

/// `N weight W`, and what stands behind
#[tactic(auto, unfolding(repair_model::specs::Line::block_line_of))]
fn block_line(mut fields: Fields<'_>) -> Option<RepairLine<'_>>
    ensures { option_map meaning_of result ≡ model.block_line_of fields.entry }
{
    let number = fields.next()?;
    let number = place_of(number)?;
    let known = behind(b"weight", &mut fields)?;
    let known = weight(known)?;
    weighed_block(number, known, fields)
}

/// `count C` and the prices, or `in S` and the other side
#[tactic(auto, unfolding(repair_model::specs::Line::weighed_of))]
fn weighed_block(number: u64, weight: Weight, mut fields: Fields<'_>) -> Option<RepairLine<'_>>
    ensures { option_map meaning_of result ≡ model.weighed_of number weight fields.entry }
{
    let word = fields.next()?;
    let field = fields.next()?;
    if word == b"count".as_slice() {
        counted_block(number, weight, field, fields)
    } else if word == b"in".as_slice() {
        sided_block(number, weight, field, fields)
    } else {
        None
    }
}

/// `in P out Q`
#[tactic(auto, unfolding(repair_model::specs::Line::counted_of))]
fn counted_block<'a>(
    number: u64,
    weight: Weight,
    field: &[u8],
    mut fields: Fields<'a>,
) -> Option<RepairLine<'a>>
    ensures { option_map meaning_of result
        ≡ model.counted_of number weight field.now fields.entry }
{
    let count = place_of(field)?;
    let enter = behind(b"in", &mut fields)?;
    let leave = behind(b"out", &mut fields)?;
    let enter = price(enter)?;
    let leave = price(leave)?;
    if fields.next().is_some() {
        return None;
    }
    Some(RepairLine::Count(number, weight, count, enter, leave))
}

/// `out T`
#[tactic(auto, unfolding(repair_model::specs::Line::sided_of))]
fn sided_block<'a>(
    number: u64,
    weight: Weight,
    field: &[u8],
    mut fields: Fields<'a>,
) -> Option<RepairLine<'a>>
    ensures { option_map meaning_of result
        ≡ model.sided_of number weight field.now fields.entry }
{
    let enter = bit(field)?;
    let leave = behind(b"out", &mut fields)?;
    let leave = bit(leave)?;
    if fields.next().is_some() {
        return None;
    }
    Some(RepairLine::Sides(number, weight, enter, leave))
}

/// `N M`, and what stands behind
#[tactic(auto, unfolding(repair_model::specs::Line::edge_line_of))]
fn edge_line(mut fields: Fields<'_>) -> Option<RepairLine<'_>>
    ensures { option_map meaning_of result ≡ model.edge_line_of fields.entry }
{
    let from = fields.next()?;
    let to = fields.next()?;
    let from = place_of(from)?;
    let to = place_of(to)?;
    joined_edge(from, to, fields)
}

/// `count C`, or `weight W count C`
#[tactic(auto, unfolding(repair_model::specs::Line::joined_of))]
fn joined_edge(from: u64, to: u64, mut fields: Fields<'_>) -> Option<RepairLine<'_>>
    ensures { option_map meaning_of result ≡ model.joined_of from to fields.entry }
{
    let word = fields.next()?;
    let field = fields.next()?;
    if word == b"weight".as_slice() {
        let known = weight(field)?;
        let taken = behind(b"count", &mut fields)?;
        taken_edge(from, to, Some(known), taken, fields)
    } else if word == b"count".as_slice() {
        taken_edge(from, to, None, field, fields)
    } else {
        None
    }
}

/// Nothing more behind the count.
#[tactic(auto, unfolding(repair_model::specs::Line::taken_of))]
fn taken_edge<'a>(
    from: u64,
    to: u64,
    weight: Option<Weight>,
    field: &[u8],
    mut fields: Fields<'a>,
) -> Option<RepairLine<'a>>
    ensures { option_map meaning_of result
        ≡ model.taken_of from to weight field.now fields.entry }
{
    let count = place_of(field)?;
    if fields.next().is_some() {
        return None;
    }
    Some(RepairLine::Edge(from, to, weight, count))
}

/// `COST` or `LOWER UPPER`
#[tactic(auto, unfolding(repair_model::specs::Line::end_line_of))]
fn end_line(mut fields: Fields<'_>) -> Option<RepairLine<'_>>
    ensures { option_map meaning_of result ≡ model.end_line_of fields.entry }
{
    let first = fields.next()?;
    let Some(second) = fields.next() else {
        return Some(RepairLine::EndOfFlow(sum(first)?));
    };
    if fields.next().is_some() {
        return None;
    }
    let least = sum(first)?;
    let most = sum(second)?;
    Some(RepairLine::EndOfCut(least, most))
}

/// The field behind a word that comes next.
fn behind<'a>(word: &[u8], fields: &mut Fields<'a>) -> Option<&'a [u8]>
    ensures { MatchOption result (model.valued word.now fields.old ≡ None)
        (λ field. model.valued word.now fields.old ≡ Some (field.now, fields.new)) }
{
    let first = fields.next()?;
    let field = fields.next()?;
    if first == word { Some(field) } else { None }
}

/// A weight below 2^44, or `?` for none.
#[tactic(auto, unfolding(repair_model::specs::Line::weight_of))]
fn weight(field: &[u8]) -> Option<Weight>
    ensures { result ≡ model.weight_of field.now }
{
    if field == b"?".as_slice() {
        Some(Weight::Unknown)
    } else {
        Some(Weight::Known(count_of(field)?))
    }
}

/// A price: of 64 bits with sign.
fn price(field: &[u8]) -> Option<i64>
    ensures { result ≡ model.price_of field.now }
{
    signed(field).ok()
}

/// A cost or a sum: of 128 bits.
fn sum(field: &[u8]) -> Option<u128>
    ensures { result ≡ model.sum_of field.now }
{
    wide(field).ok()
}

/// 0 or 1
#[tactic(auto, unfolding(repair_model::specs::Line::bit_of))]
fn bit(field: &[u8]) -> Option<bool>
    ensures { result ≡ model.bit_of field.now }
{
    bit_by_number(place_of(field)?)
}

/// What 0 and 1 stand for.
fn bit_by_number(number: u64) -> Option<bool>
    ensures { result ≡ model.bit_by_number number }
{
    match number {
        0 => Some(false),
        1 => Some(true),
        _ => None,
    }
}
