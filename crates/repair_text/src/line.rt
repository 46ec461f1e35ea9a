// One line, with its line feed.
ghost use Rattle.std.specs.Prelude.{◌≡◌, ◌<◌, ◌++◌, ◌^◌, codes, length, pos, slice_index_or, true, OnOk};
ghost use Rattle.text_model.specs.Laws.{ended};
ghost use Rattle.text_model.specs.Numbers.{decimal_text, signed_text};
ghost use Rattle.block_model.specs.Limits.{bound_bits};
ghost use Rattle.flow_model.specs.Network.{weight_of};
ghost use Rattle.repair_model.specs.Bits.{FitsBits, IsSmallIfTold};
ghost use Rattle.repair_model.specs.Line as model;

use cfg_text::Weight;
use refusal::NoMemory;
use text_scan::{push_number, push_signed};

/// Appends `# function NAME flow`.
pub(crate) fn push_begin_of_flow(text: &mut Vec<u8>, name: &[u8]) -> Result<(), NoMemory>
    ensures { OnOk result (text.new.items
        ≡ text.old.items ++ ended (model.line_text (model.begins_flow name.now))) }
{
    text.extend_from_slice(b"# function ")?;
    text.extend_from_slice(name)?;
    text.extend_from_slice(b" flow\n")?;
    Ok(())
}

/// Appends `# function NAME cut R`.
pub(crate) fn push_begin_of_cut(text: &mut Vec<u8>, name: &[u8], root: bool) -> Result<(), NoMemory>
    ensures { OnOk result (text.new.items
        ≡ text.old.items ++ ended (model.line_text (model.begins_cut name.now root))) }
{
    text.extend_from_slice(b"# function ")?;
    text.extend_from_slice(name)?;
    text.extend_from_slice(b" cut ")?;
    push_bit(text, root)?;
    text.push(b'\n')?;
    Ok(())
}

/// Appends `# block N weight W count C in P out Q`, the prices by the number of the block.
pub(crate) fn push_count(
    text: &mut Vec<u8>,
    number: usize,
    weight: Weight,
    count: u64,
    ins: &[i64],
    outs: &[i64],
) -> Result<(), NoMemory>
    requires entered { number < length ins.now }
    requires left { number < length outs.now }
    ensures written { OnOk result (text.new.items ≡ text.old.items
        ++ ended (model.line_text (model.tells_count number weight count
        (slice_index_or ins.now number (pos 0)) (slice_index_or outs.now number (pos 0))))) }
    ensures fits { OnOk result (weight_of weight < 2 ^ bound_bits
        → FitsBits (model.tells_count number weight count
        (slice_index_or ins.now number (pos 0)) (slice_index_or outs.now number (pos 0)))) }
{
    push_block(text, number, weight)?;
    text.extend_from_slice(b" count ")?;
    push_small(text, count)?;
    text.extend_from_slice(b" in ")?;
    push_price(text, ins, number)?;
    text.extend_from_slice(b" out ")?;
    push_price(text, outs, number)?;
    text.push(b'\n')?;
    Ok(())
}

/// Appends the price of a block's side.
fn push_price(text: &mut Vec<u8>, prices: &[i64], number: usize) -> Result<(), NoMemory>
    requires { number < length prices.now }
    ensures written { OnOk result (text.new.items ≡ text.old.items
        ++ signed_text (slice_index_or prices.now number (pos 0))) }
    ensures fits { OnOk result
        (model.fits_price (slice_index_or prices.now number (pos 0)) ≡ true) }
{
    let price = prices[number];
    if price < 0 {
        return push_signed(text, price);
    }
    push_small(text, price as u64)
}

/// Appends `# block N weight W in S out T`.
pub(crate) fn push_sides(
    text: &mut Vec<u8>,
    number: usize,
    weight: Weight,
    enter: bool,
    leave: bool,
) -> Result<(), NoMemory>
    ensures written { OnOk result (text.new.items ≡ text.old.items
        ++ ended (model.line_text (model.tells_sides number weight enter leave))) }
    ensures fits { OnOk result (weight_of weight < 2 ^ bound_bits
        → FitsBits (model.tells_sides number weight enter leave)) }
{
    push_block(text, number, weight)?;
    text.extend_from_slice(b" in ")?;
    push_bit(text, enter)?;
    text.extend_from_slice(b" out ")?;
    push_bit(text, leave)?;
    text.push(b'\n')?;
    Ok(())
}

/// Appends `# edge N M count C`, with `weight W` before the count if a weight is told.
pub(crate) fn push_edge(
    text: &mut Vec<u8>,
    from: u32,
    to: u32,
    weight: Option<Weight>,
    count: u64,
) -> Result<(), NoMemory>
    ensures written { OnOk result (text.new.items ≡ text.old.items
        ++ ended (model.line_text (model.tells_edge from to weight count))) }
    ensures fits { OnOk result (IsSmallIfTold weight
        → FitsBits (model.tells_edge from to weight count)) }
{
    text.extend_from_slice(b"# edge ")?;
    push_small(text, u64::from(from))?;
    text.push(b' ')?;
    push_small(text, u64::from(to))?;
    if let Some(weight) = weight {
        text.extend_from_slice(b" weight ")?;
        push_weight(text, weight)?;
    }
    text.extend_from_slice(b" count ")?;
    push_small(text, count)?;
    text.push(b'\n')?;
    Ok(())
}

/// Appends `# end COST`.
pub(crate) fn push_end_of_flow(text: &mut Vec<u8>, cost: u128) -> Result<(), NoMemory>
    ensures written { OnOk result (text.new.items
        ≡ text.old.items ++ ended (model.line_text (model.ends_flow cost))) }
    ensures fits { OnOk result (FitsBits (model.ends_flow cost)) }
{
    text.extend_from_slice(b"# end ")?;
    push_number(text, cost)?;
    text.push(b'\n')?;
    Ok(())
}

/// Appends `# end LOWER UPPER`.
pub(crate) fn push_end_of_cut(text: &mut Vec<u8>, least: u128, most: u128) -> Result<(), NoMemory>
    ensures written { OnOk result (text.new.items
        ≡ text.old.items ++ ended (model.line_text (model.ends_cut least most))) }
    ensures fits { OnOk result (FitsBits (model.ends_cut least most)) }
{
    text.extend_from_slice(b"# end ")?;
    push_number(text, least)?;
    text.push(b' ')?;
    push_number(text, most)?;
    text.push(b'\n')?;
    Ok(())
}

/// Appends `# block N weight W`.
fn push_block(text: &mut Vec<u8>, number: usize, weight: Weight) -> Result<(), NoMemory>
    ensures { OnOk result (text.new.items ≡ text.old.items
        ++ codes "# block " ++ decimal_text number ++ codes " weight "
        ++ model.weight_text weight) }
{
    text.extend_from_slice(b"# block ")?;
    push_small(text, number as u64)?;
    text.extend_from_slice(b" weight ")?;
    push_weight(text, weight)
}

/// Appends a weight, or `?` for none.
fn push_weight(text: &mut Vec<u8>, weight: Weight) -> Result<(), NoMemory>
    ensures { OnOk result (text.new.items ≡ text.old.items ++ model.weight_text weight) }
{
    match weight {
        Weight::Unknown => {
            text.push(b'?')?;
            Ok(())
        }
        Weight::Known(weight) => push_small(text, weight),
    }
}

/// Appends a number, which is one digit as a rule.
fn push_small(text: &mut Vec<u8>, number: u64) -> Result<(), NoMemory>
    ensures { OnOk result (text.new.items ≡ text.old.items ++ decimal_text number) }
{
    if number >= 10 {
        return push_number(text, u128::from(number));
    }
    text.push(b'0' + number as u8)?;
    Ok(())
}

/// Appends 1 for a side in a cut, and 0 for another.
fn push_bit(text: &mut Vec<u8>, bit: bool) -> Result<(), NoMemory>
    ensures { OnOk result (text.new.items ≡ text.old.items ++ model.bit_text bit) }
{
    text.push(if bit { b'1' } else { b'0' })?;
    Ok(())
}
