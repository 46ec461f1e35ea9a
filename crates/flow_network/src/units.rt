// What a unit above or below a weight costs.
ghost use Rattle.std.specs.Prelude.{◌≡◌};
ghost use Rattle.flow_model.specs.Network as model;

use cfg_text::Weight;

/// The count that costs nothing.
pub(crate) fn weight_of(weight: Weight) -> u64
    ensures { result ≡ model.weight_of weight }
{
    match weight {
        Weight::Unknown => 0,
        Weight::Known(weight) => weight,
    }
}

/// What a unit above a block's weight costs.
pub(crate) fn raise_of_block(number: u32, weight: Weight) -> u64
    ensures { result ≡ model.raise_of_block number weight }
{
    match weight {
        Weight::Unknown => 1,
        Weight::Known(_) if number == 0 => 40,
        Weight::Known(0) => 11,
        Weight::Known(_) => 10,
    }
}

/// What a unit below a block's weight costs.
pub(crate) fn lower_of_block(number: u32, weight: Weight) -> u64
    ensures { result ≡ model.lower_of_block number weight }
{
    match weight {
        Weight::Unknown => 0,
        Weight::Known(_) if number == 0 => 10,
        Weight::Known(0) => 0,
        Weight::Known(_) => 20,
    }
}

/// What a unit above an edge's weight costs.
pub(crate) fn raise_of_edge(weight: Weight) -> u64
    ensures { result ≡ model.raise_of_edge weight }
{
    match weight {
        Weight::Unknown => 0,
        Weight::Known(0) => 3,
        Weight::Known(_) => 2,
    }
}

/// What a unit below an edge's weight costs.
pub(crate) fn lower_of_edge(weight: Weight) -> u64
    ensures { result ≡ model.lower_of_edge weight }
{
    match weight {
        Weight::Unknown => 0,
        Weight::Known(0) => 0,
        Weight::Known(_) => 4,
    }
}
